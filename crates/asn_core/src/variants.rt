//! Defines the tags of the alternatives of a CHOICE (X.680, section 29).
ghost use Rattle.asn_core.specs.Tags.{smallest, has_tag, alternatives};
ghost use Rattle.std.specs.List.{list_all};
ghost use Rattle.std.specs.Prelude.{◌≡◌, ◌++◌, IfOk, IsTrue, OnOk, Some, map};

use crate::{OutOfMemory, Tag, TagTree};
use std::alloc::Global;
use std::marker::Model;

/// Holds the tags of the alternatives of a CHOICE type, seen as their list. An alternative that is
/// itself a CHOICE without a tag of its own counts by its smallest tag (X.680, section 8.6).
#[derive(Debug, Drop)]
pub struct Variants {
    /// One tag an alternative, in their order.
    tags: Vec<Tag>,
}

impl Model for Variants {
    ghost use Rattle.asn_core.specs.declared.tag.Tag.{Tag};
    ghost use Rattle.std.specs.Prelude.{List};

    ghost Value = { List Tag };

    ghost view = { λ v. v.tags.items };
}

impl Variants {
    /// Lists the smallest tag of each alternative in order, extension additions after those of the
    /// base. Each of them has to have a tag.
    ///
    /// # Errors
    ///
    /// `OutOfMemory` alone.
    pub fn from_parts(
        alloc: Global,
        base: &'static [TagTree],
        added: Option<&'static [TagTree]>,
    ) -> Result<Variants, OutOfMemory>
        requires { IsTrue (list_all has_tag (alternatives base.now added)) }
        ensures { IfOk result (λ v. map Some v ≡ map smallest (alternatives base.now added.entry)) }
    {
        let mut variants = Variants {
            tags: Vec::new(alloc),
        };
        variants.append(base)?;
        if let Some(added) = added {
            variants.append(added)?;
        }
        Ok(variants)
    }

    /// Adds the smallest tag of each tree, in order.
    fn append(&mut self, trees: &[TagTree]) -> Result<(), OutOfMemory>
        requires { IsTrue (list_all has_tag trees.now) }
        ensures { OnOk result (map Some self.new ≡ map Some self.old ++ map smallest trees.now) }
    {
        for tree in trees {
            self.tags.push(tree.smallest_tag())?;
        }
        Ok(())
    }

    /// Returns the tags, in order.
    pub fn tags(&self) -> &[Tag]
        ensures { result.now ≡ self.now }
    {
        self.tags.as_slice()
    }
}
