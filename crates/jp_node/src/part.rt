//! Values inside of a document.

ghost use Rattle.std.specs.Prelude.{◌≡◌, ◌≤◌, ◌<◌, option_map, IfSome, IsTrue};
ghost use Rattle.std.specs.Str.{chars};
ghost use Rattle.jp_doc.specs.Height.{height};
ghost use Rattle.jp_doc.specs.Json as json;
ghost use Rattle.jp_doc.specs.Location.{member_of, item_of};
ghost use Rattle.jp_doc.specs.Reading.{max_line};
ghost use Rattle.jp_flat.specs.Document.{document_value};
ghost use Rattle.jp_flat.specs.Value.{flat_number, item_count};
ghost use Rattle.jp_node.specs.Inside.{kind_value, IsInside, IsScalar};
ghost use Rattle.jp_node.specs.Part.{part_value};

use crate::items::Items;
use crate::members::Members;
use jp_flat::{FlatDocument, FlatKind, FlatNumber, FlatValue};
use jp_number::{Number, NumberText};

/// A value of a document.
#[derive(Clone, Copy)]
pub struct Part<'v> {
    /// The value itself.
    pub value: FlatValue<'v>,
}

/// What is inside of a value.
#[derive(Clone, Copy)]
pub enum Inside<'v> {
    /// The items of an array.
    Items(Items<'v>),
    /// The members of an object.
    Members(Members<'v>),
    /// The value is of another kind.
    Nothing,
}

/// What a value is.
#[derive(Clone, Copy)]
pub enum Kind<'v> {
    /// `null`.
    Null,
    /// `true` or `false`.
    Truth(bool),
    /// A whole number.
    Whole(i128),
    /// Any other number, by the text that writes it.
    Written(NumberText<'v>),
    /// A text.
    Text(&'v str),
    /// An array, of these items.
    Array(Items<'v>),
    /// An object, of these members.
    Object(Members<'v>),
}

impl<'v> Part<'v> {
    /// The whole value of a document.
    pub fn root_of(document: &'v FlatDocument<'_>) -> Part<'v>
        ensures { part_value result ≡ document_value document.now }
    {
        let value = document.root();
        Part { value }
    }

    /// The member of this name. It goes over all members.
    pub fn member(self, name: &str) -> Option<Part<'v>>
        ensures value { option_map part_value result ≡ member_of (chars name.now) (part_value self.entry) }
        ensures below { IfSome result (λ p. height (part_value p) < height (part_value self.entry)) }
    {
        let value = self.value.member(name)?;
        Some(Part { value })
    }

    /// The item at this place. It goes over those before it.
    pub fn item(self, place: u32) -> Option<Part<'v>>
        ensures value { option_map part_value result ≡ item_of place (part_value self.entry) }
        ensures below { IfSome result (λ p. height (part_value p) < height (part_value self.entry)) }
    {
        let value = self.value.item(place)?;
        Some(Part { value })
    }

    /// How many items the array has, and 0 of any other value. It goes over them.
    pub fn item_count(self) -> u32
        ensures count { result ≡ item_count (part_value self.entry) }
        ensures short { result ≤ max_line }
    {
        self.value.item_count()
    }

    /// Whether the value is of a kind that has nothing inside.
    // A descent asks it of each item that it passes.
    #[inline(always)]
    pub fn is_scalar(self) -> bool
        ensures { IsTrue result → IsScalar (part_value self.entry) }
    {
        !self.value.is_structured()
    }

    /// What is inside of the value.
    pub fn inside(self) -> Inside<'v>
        ensures { IsInside result (part_value self.entry) }
    {
        match self.value.kind() {
            FlatKind::Array(items) => Inside::Items(Items { items }),
            FlatKind::Object(members) => Inside::Members(Members { members }),
            FlatKind::Null => Inside::Nothing,
            FlatKind::Truth(_) => Inside::Nothing,
            FlatKind::Number(_) => Inside::Nothing,
            FlatKind::Text(_) => Inside::Nothing,
        }
    }

    /// What the value is.
    pub fn kind(self) -> Kind<'v>
        ensures { kind_value result ≡ part_value self.entry }
    {
        match self.value.kind() {
            FlatKind::Null => Kind::Null,
            FlatKind::Truth(truth) => Kind::Truth(truth),
            FlatKind::Number(number) => number_kind(number),
            FlatKind::Text(text) => Kind::Text(text),
            FlatKind::Array(items) => Kind::Array(Items { items }),
            FlatKind::Object(members) => Kind::Object(Members { members }),
        }
    }
}

/// What a number is.
fn number_kind(number: FlatNumber<'_>) -> Kind<'_>
    ensures { kind_value result ≡ json.number (flat_number number.entry) }
{
    match number.value() {
        Number::Whole(whole) => Kind::Whole(whole),
        Number::Written(text) => Kind::Written(text),
    }
}
