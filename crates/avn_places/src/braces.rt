//! Keeps in mind what stands in braces.
ghost use Rattle.avn_places.specs.Braces.{behind_value, new_braces, with_item};
ghost use Rattle.std.specs.Prelude.{◌≡◌};

/// Is what an item of braces begins with.
#[derive(Clone, Copy, PartialEq, Eq, Drop)]
pub enum Item {
    /// Is the name of a field.
    Named,
    /// Is the name of an alternative, or a word.
    Other,
    /// Is no name: the item may be an integer.
    Plain,
}

/// Is what the items of braces were so far.
#[derive(Clone, Copy, Drop)]
pub struct Braces {
    /// States whether they have names, once there is one.
    named: Option<bool>,
    /// States whether all of them are integers without a name.
    are_integers: bool,
}

impl Braces {
    /// Returns braces before their first item.
    pub fn new() -> Braces
        ensures { result ≡ new_braces }
    {
        Braces {
            named: None,
            are_integers: true,
        }
    }

    /// Returns the braces with this item more, or `None` where it has a name and the others have
    /// none, or the other way round.
    pub fn with_item(self, item: Item) -> Option<Braces>
        ensures { result ≡ with_item self item }
    {
        let is_named = matches!(item, Item::Named);
        match self.named {
            Some(named) if named != is_named => None,
            _ => Some(Braces {
                named: Some(is_named),
                are_integers: self.are_integers && matches!(item, Item::Plain),
            }),
        }
    }

    /// Returns the braces after a value of theirs, which is an integer or not.
    pub fn behind_value(self, is_integer: bool) -> Braces
        ensures { result ≡ behind_value self is_integer }
    {
        Braces {
            named: self.named,
            are_integers: self.are_integers && is_integer,
        }
    }

    /// Returns whether a number may follow without a comma.
    pub fn takes_number(self) -> bool
        ensures { result ≡ self.are_integers }
    {
        self.are_integers
    }
}
