//! Defines constraints on values and on sizes (X.680, sections 49 to 51). Neither notation checks
//! them; a fixed size of a BIT STRING alone changes what JER writes.
ghost use Rattle.asn_core.specs.Bounds.{HasCount, IsCount, intersection, is_admitted, is_every};
ghost use Rattle.asn_core.specs.Bounds.{nat_cmp-int_cmp};
ghost use Rattle.asn_core.specs.Bounds.{is_from, is_single, is_up_to, larger, range_if_any};
ghost use Rattle.asn_core.specs.Bounds.{smaller, start_of};
ghost use Rattle.asn_core.specs.Constraints.{any_has_marker, first_size_constraint, has_marker};
ghost use Rattle.asn_core.specs.Texts.{bounded_text};
ghost use Rattle.std.specs.Fmt.{signed_decimal};
ghost use Rattle.std.specs.Option.{option_copied};
ghost use Rattle.std.specs.Ordering.{int_cmp, int_eq};
ghost use Rattle.std.specs.Prelude.{◌≡◌, ◌&&◌, ◌-◌, ◌^◌, ◌<ℤ◌, ◌≤ℤ◌, ℕ, ℤ, List, pos, decimal};
ghost use Rattle.std.specs.Prelude.{refl};
ghost use Rattle.std.specs.Prelude.{IfNone, IfSome, MatchResult, None, Some, false, if◌then◌else◌};
ghost use Rattle.std.specs.Prelude.{int_lt, not, true};

use std::fmt;

/// A number that a constraint can bound.
pub trait Bound: Copy + Ord + fmt::Display {
    // What the number prints.
    ghost text: { Self → List ℕ };

    // The number that it is.
    ghost number: { Self → ℤ };

    // The greatest number of the type.
    ghost greatest: { ℤ };

    /// Returns how many numbers there are from this one to the last, or none where the last is
    /// below this one or the type has no such number.
    fn count_to(self, last: Self) -> Option<Self>
        ensures { IsCount number greatest (number self) (number last) result };

    // It prints its text.
    ghost prints: { (n : Self) → Self.output n ≡ Some (text n) };

    // Numbers compare as what they are.
    ghost order: { (a b : Self) → Self.cmp a b ≡ int_cmp (number a) (number b) };

    // The type has a one.
    ghost has_one: { pos 1 ≤ℤ greatest };
}

impl Bound for usize {
    ghost use Rattle.std.proofs.Common.{rules};

    ghost text = { decimal };

    ghost number = { pos };

    ghost greatest = { pos (2 ^ 64 - 1) };

    fn count_to(self, last: usize) -> Option<usize> {
        last.checked_sub(self)?.checked_add(1)
    }

    ghost prints = { λ n. refl };

    ghost order = { nat_cmp-int_cmp };

    ghost has_one = { Prim.search rules };
}

impl Bound for i128 {
    ghost use Rattle.std.proofs.Common.{rules};

    ghost text = { signed_decimal };

    ghost number = { λ n. n };

    ghost greatest = { pos (2 ^ 127 - 1) };

    fn count_to(self, last: i128) -> Option<i128> {
        if last < self {
            return None;
        }
        last.checked_sub(self)?.checked_add(1)
    }

    ghost prints = { λ n. refl };

    ghost order = { λ a b. refl };

    ghost has_one = { Prim.search rules };
}

/// The numbers that a constraint admits.
#[derive(Clone, Copy, Debug, PartialEq, Eq)]
pub enum Bounded<T> {
    /// Every number.
    None,
    /// One number.
    Single(T),
    /// The numbers from the start to the end, both included. An end that is absent is no limit.
    Range { start: Option<T>, end: Option<T> },
}

/// `5` for a single number, `1..10` for a range, with `MIN` and `MAX` for ends that are absent, and
/// `MIN..MAX` for every number.
impl<T: Bound> fmt::Display for Bounded<T> {
    ghost output = { λ bounds. Some (bounded_text T.text bounds) };

    fn fmt<W: fmt::Write>(&self, f: &mut fmt::Formatter<W>) -> fmt::Result {
        match self {
            Bounded::None => f.write_str("MIN..MAX"),
            Bounded::Single(number) => number.fmt(f),
            Bounded::Range { start, end } => {
                match start {
                    Some(start) => start.fmt(f)?,
                    None => f.write_str("MIN")?,
                }
                f.write_str("..")?;
                match end {
                    Some(end) => end.fmt(f),
                    None => f.write_str("MAX"),
                }
            }
        }
    }
}

impl<T: Bound> Bounded<T> {
    /// Returns the range from the start to the end, both included.
    pub fn new(start: T, end: T) -> Bounded<T>
        ensures { result ≡ Bounded.Range (Some start) (Some end) }
    {
        Bounded::Range {
            start: Some(start),
            end: Some(end),
        }
    }

    /// Returns whether these are the bounds of a single number.
    pub fn is_fixed(&self) -> bool
        ensures { result ≡ is_single self.now }
    {
        matches!(self, Bounded::Single(_))
    }

    /// Returns the single number or the start of the range, or none where every number is admitted
    /// or the range has no start.
    pub fn as_start(&self) -> Option<&T>
        ensures { option_copied result ≡ start_of self.now }
    {
        match self {
            Bounded::None => None,
            Bounded::Single(number) => Some(number),
            Bounded::Range { start, .. } => start.as_ref(),
        }
    }

    /// Returns whether the number is admitted.
    pub fn contains(&self, value: &T) -> bool
        ensures { result ≡ is_admitted T.number self.now (T.number value.now) }
    {
        match self {
            Bounded::None => true,
            Bounded::Single(number) => number == value,
            Bounded::Range { start, end } => is_from(start, value) && is_up_to(end, value),
        }
    }

    /// Returns how many numbers are admitted: one where a single one is, and for a range with both
    /// ends those from the start to the end. It returns none for other bounds, where the end is
    /// below the start, and where the type has no such number.
    pub fn range(&self) -> Option<T>
        ensures { HasCount T.number T.greatest self.now result }
    {
        match self {
            Bounded::None => None,
            Bounded::Single(number) => number.count_to(*number),
            Bounded::Range { start, end } => (*start)?.count_to((*end)?),
        }
    }

    /// Returns the bounds of the numbers that both admit. Bounds of every number leave the others
    /// as they are, a single number that the others admit stays single, and two ranges give a
    /// range. It returns none exactly where neither are bounds of every number and no number is in
    /// both.
    pub fn intersect(&self, other: &Bounded<T>) -> Option<Bounded<T>>
        ensures is { result ≡ intersection T.number self.now other.now }
        ensures both { IfSome result (λ bounds. (n : ℤ) → is_admitted T.number bounds n
            ≡ (is_admitted T.number self.now n && is_admitted T.number other.now n)) }
        ensures apart { IfNone result ((n : ℤ)
            → (is_admitted T.number self.now n && is_admitted T.number other.now n) ≡ false) }
        ensures some { IfNone result ((is_every self.now ≡ false) × (is_every other.now ≡ false)) }
    {
        match (self, other) {
            (Bounded::None, bounds) => Some(*bounds),
            (bounds, Bounded::None) => Some(*bounds),
            (Bounded::Single(number), bounds) => single_within(number, bounds),
            (bounds, Bounded::Single(number)) => single_within(number, bounds),
            (
                Bounded::Range { start, end },
                Bounded::Range {
                    start: other_start,
                    end: other_end,
                },
            ) => range_if_any(larger(start, other_start), smaller(end, other_end)),
        }
    }
}

/// Returns whether the number is at most the other.
fn is_at_most<T: Bound>(number: &T, other: &T) -> bool
    ensures { result ≡ not (int_lt (T.number other.now) (T.number number.now)) }
{
    number <= other
}

/// Returns whether the number isn't below the start, if there is one.
fn is_from<T: Bound>(start: &Option<T>, number: &T) -> bool
    ensures { result ≡ is_from T.number start.now (T.number number.now) }
{
    match start {
        Some(start) => is_at_most(start, number),
        None => true,
    }
}

/// Returns whether the number isn't above the end, if there is one.
fn is_up_to<T: Bound>(end: &Option<T>, number: &T) -> bool
    ensures { result ≡ is_up_to T.number end.now (T.number number.now) }
{
    match end {
        Some(end) => is_at_most(number, end),
        None => true,
    }
}

/// Returns the bounds of the single number, or none where the other bounds don't admit it.
fn single_within<T: Bound>(number: &T, bounds: &Bounded<T>) -> Option<Bounded<T>>
    ensures { result ≡ (if is_admitted T.number bounds.now (T.number number.now)
        then Some (Bounded.Single number.now) else None) }
{
    if bounds.contains(number) {
        Some(Bounded::Single(*number))
    } else {
        None
    }
}

/// Returns the larger of the numbers that are there.
fn larger<T: Bound>(one: &Option<T>, other: &Option<T>) -> Option<T>
    ensures { result ≡ larger T.number one.now other.now }
{
    match (one, other) {
        (None, other) => *other,
        (one, None) => *one,
        (Some(a), Some(b)) => Some(if is_at_most(b, a) { *a } else { *b }),
    }
}

/// Returns the smaller of the numbers that are there.
fn smaller<T: Bound>(one: &Option<T>, other: &Option<T>) -> Option<T>
    ensures { result ≡ smaller T.number one.now other.now }
{
    match (one, other) {
        (None, other) => *other,
        (one, None) => *one,
        (Some(a), Some(b)) => Some(if is_at_most(a, b) { *a } else { *b }),
    }
}

/// Returns the range, or none where its end is below its start.
fn range_if_any<T: Bound>(start: Option<T>, end: Option<T>) -> Option<Bounded<T>>
    ensures { result ≡ range_if_any T.number start end }
{
    if let (Some(start), Some(end)) = (&start, &end) {
        if !is_at_most(start, end) {
            return None;
        }
    }
    Some(Bounded::Range { start, end })
}

/// The numbers of elements, characters, octets or bits that a value may have.
#[derive(Clone, Copy, Debug, PartialEq, Eq)]
pub struct Size {
    /// The bounds of that number.
    pub bounds: Bounded<usize>,
}

impl Size {
    /// Returns whether one number alone is admitted.
    pub fn is_fixed(&self) -> bool
        ensures { result ≡ is_single self.now.bounds }
    {
        self.bounds.is_fixed()
    }

    /// Returns the one number that is admitted, or the least where a range has a start.
    pub fn as_start(&self) -> Option<&usize>
        ensures { option_copied result ≡ start_of self.now.bounds }
    {
        self.bounds.as_start()
    }

    /// Returns whether the number is admitted.
    pub fn contains(&self, value: &usize) -> bool
        ensures { result ≡ is_admitted pos self.now.bounds (pos value.now) }
    {
        self.bounds.contains(value)
    }

    /// Checks that the length is admitted.
    ///
    /// # Errors
    ///
    /// What `fault` answers, exactly where the length isn't admitted.
    pub fn contains_or_else<E, F: FnOnce() -> E>(&self, length: &usize, fault: F) -> Result<(), E>
        requires { F.pre fault }
        ensures { MatchResult result
            (λ _. is_admitted pos self.now.bounds (pos length.now) ≡ true)
            (λ e. (is_admitted pos self.now.bounds (pos length.now) ≡ false)
            × F.post fault e) }
    {
        if self.contains(length) {
            Ok(())
        } else {
            Err(fault())
        }
    }
}

/// A constraint, and whether later versions of the type may admit more (the marker `...`).
#[derive(Clone, Copy, Debug, PartialEq, Eq)]
pub struct Extensible<T> {
    /// The constraint.
    pub constraint: T,
    /// Whether it has the marker.
    pub extensible: bool,
}

/// One constraint of a type.
#[derive(Clone, Copy, Debug)]
pub enum Constraint {
    /// The numbers that an INTEGER may be.
    Value(Extensible<Bounded<i128>>),
    /// The sizes that a value may have.
    Size(Extensible<Size>),
    /// No limit, and the type is extensible.
    Extensible,
}

impl Constraint {
    /// Returns whether the constraint has the extension marker.
    fn has_marker(&self) -> bool
        ensures { result ≡ has_marker self.now }
    {
        match self {
            Constraint::Value(numbers) => numbers.extensible,
            Constraint::Size(sizes) => sizes.extensible,
            Constraint::Extensible => true,
        }
    }
}

/// The constraints of a type, in the order in which they are written.
#[derive(Clone, Copy, Debug)]
pub struct Constraints {
    /// The constraints.
    pub items: &'static [Constraint],
}

impl Constraints {
    /// No constraint.
    pub const NONE: Constraints = Constraints { items: &[] };

    /// Returns the first constraint on sizes, or none where there is no such constraint.
    pub fn size(&self) -> Option<&Extensible<Size>>
        ensures { option_copied result ≡ first_size_constraint self.now.items.now }
    {
        for constraint in self.items {
            if let Constraint::Size(size) = constraint {
                return Some(size);
            }
        }
        None
    }

    /// Returns whether later versions of the type may admit more: a constraint has the extension
    /// marker.
    pub fn extensible(&self) -> bool
        ensures { result ≡ any_has_marker self.now.items.now }
    {
        self.items.iter().any(Constraint::has_marker)
    }
}
