//! Values of a flat document, and cursors over their items and members.

ghost use Rattle.std.specs.Prelude.{◌≡◌, ℕ, ◌<◌, ◌≤◌, ◌∷◌, drop, true, false, MatchOption, IfSome};
ghost use Rattle.json.specs.Token.{begin_array, begin_object};
ghost use Rattle.jp_doc.specs.Reading.{max_line, has_long_array};
ghost use Rattle.jp_flat.specs.Document.{document_source, document_tokens};
ghost use Rattle.jp_flat.specs.inner.Held.{HasPiece, IsNamed};
ghost use Rattle.jp_flat.specs.inner.Plain.{is_fit_number, is_flat};
ghost use Rattle.jp_flat_nodes.specs.Nodes.{token_at};

use crate::digits::read_number;
use crate::document::FlatDocument;
use crate::gather::is_same;
use jp_flat_nodes::FlatNode;
use jp_number::Number;

/// A value of a flat document.
#[derive(Clone, Copy)]
pub struct FlatValue<'d> {
    document: &'d FlatDocument<'d>,
    at: u32,
    ghost flat: { is_flat (drop at (document_tokens document.now)) ≡ true },
}

/// Items of an array, from one on to the last.
#[derive(Clone, Copy)]
pub struct FlatItems<'d> {
    document: &'d FlatDocument<'d>,
    at: u32,
    ghost flat: { is_flat (begin_array ∷ drop at (document_tokens document.now)) ≡ true },
}

/// Members of an object in the order of the line, from one on to the last.
#[derive(Clone, Copy)]
pub struct FlatMembers<'d> {
    document: &'d FlatDocument<'d>,
    at: u32,
    ghost flat: { is_flat (begin_object ∷ drop at (document_tokens document.now)) ≡ true },
}

/// A member of an object.
#[derive(Clone, Copy, Drop)]
pub struct FlatMember<'d> {
    /// Its name.
    pub name: &'d str,
    /// Its value.
    pub value: FlatValue<'d>,
    ghost named: { ∥ IsNamed (document_tokens value.document.now) value.at name.now ∥₁ },
}

/// A number as it stands in the line.
#[derive(Clone, Copy)]
pub struct FlatNumber<'d> {
    digits: &'d str,
    ghost fit: { is_fit_number digits.now ≡ true },
}

/// What a value is, with what is inside of it.
#[derive(Clone, Copy)]
pub enum FlatKind<'d> {
    /// `null`.
    Null,
    /// `true` or `false`.
    Truth(bool),
    /// A number.
    Number(FlatNumber<'d>),
    /// A text, without its escapes.
    Text(&'d str),
    /// An array, of these items.
    Array(FlatItems<'d>),
    /// An object, of these members, in the order of the line.
    Object(FlatMembers<'d>),
}

impl<'d> FlatNumber<'d> {
    ghost use Rattle.jp_flat.specs.Value.{flat_number};
    ghost use Rattle.jp_number.specs.Number.{number_text};
    ghost use Rattle.jp_number.specs.View.{number_of};

    /// The number: whole where it is written so and has 64 bits, else by its text.
    pub fn value(self) -> Number<'d>
        ensures { number_of result ≡ flat_number self.entry }
    {
        read_number(self.digits)
    }

    /// Its text, as it stands in the line.
    pub fn digits(self) -> &'d str
        ensures { result.now ≡ number_text (flat_number self.entry) }
    {
        self.digits
    }
}

impl<'d> FlatValue<'d> {
    ghost use Rattle.std.specs.Prelude.{option_map};
    ghost use Rattle.std.specs.Str.{chars};
    ghost use Rattle.jp_doc.specs.DocumentValue.{whole_in};
    ghost use Rattle.jp_doc.specs.Location.{member_of, item_of};
    ghost use Rattle.jp_flat.specs.Structured.{is_structured};
    ghost use Rattle.jp_flat.specs.Value.{flat_value, tokens_of, items_value, members_value, text_in};
    ghost use Rattle.jp_flat.specs.Value.{IsQuotedText, number_in, item_count, IsKind, IsNoArray, IsNoObject};
    ghost use Rattle.jp_number.specs.View.{number_of};

    /// The whole value of a document.
    pub(crate) fn first(document: &'d FlatDocument<'d>) -> FlatValue<'d>
        ensures { tokens_of result ≡ document_tokens document.now }
    {
        FlatValue { document, at: 0 }
    }

    /// The node that the value begins with.
    #[inline(always)]
    fn node(self) -> FlatNode
        ensures token { tokens_of self.entry
            ≡ token_at (document_source self.entry.document.now) result ∷ drop 1 (tokens_of self.entry) }
        ensures piece { HasPiece (document_source self.entry.document.now) result }
    {
        self.document.node(self.at)
    }

    /// What the value is.
    pub fn kind(self) -> FlatKind<'d>
        ensures { IsKind result (flat_value self.entry) }
    {
        match self.node() {
            FlatNode::Object(_) => FlatKind::Object(FlatMembers {
                document: self.document,
                at: self.at + 1,
            }),
            FlatNode::Array(_) => FlatKind::Array(FlatItems {
                document: self.document,
                at: self.at + 1,
            }),
            FlatNode::Text(from, count) => FlatKind::Text(self.document.piece(from, count)),
            FlatNode::Escaped(from, count) => {
                FlatKind::Text(self.document.unescaped(from, count))
            }
            FlatNode::Number(from, count) => FlatKind::Number(FlatNumber {
                digits: self.document.piece(from, count),
            }),
            FlatNode::Truth(truth) => FlatKind::Truth(truth),
            _ => FlatKind::Null,
        }
    }

    /// The text, without its escapes, where the value is one.
    pub fn text(self) -> Option<&'d str>
        ensures { option_map (λ s. chars s.now) result ≡ text_in (flat_value self.entry) }
    {
        match self.node() {
            FlatNode::Text(from, count) => Some(self.document.piece(from, count)),
            FlatNode::Escaped(from, count) => Some(self.document.unescaped(from, count)),
            _ => None,
        }
    }

    /// The text between its quotes, as it is printed (RFC 8259, 7), where the value is one that stands so in
    /// the line. `None` says nothing.
    // Each text that is written is asked for so.
    #[inline(always)]
    pub fn quoted(self) -> Option<&'d [u8]>
        ensures { IfSome result (λ s. IsQuotedText s.now (flat_value self.entry)) }
    {
        match self.node() {
            FlatNode::Text(from, count) => Some(self.document.quoted(from, count)),
            _ => None,
        }
    }

    /// The number, where the value is one: whole where it is written so and has 64 bits, else by its text.
    pub fn number(self) -> Option<Number<'d>>
        ensures { option_map number_of result ≡ number_in (flat_value self.entry) }
    {
        match self.node() {
            FlatNode::Number(from, count) => Some(read_number(self.document.piece(from, count))),
            _ => None,
        }
    }

    /// The whole number of 64 bits, where the value is one.
    pub fn whole(self) -> Option<i128>
        ensures { result ≡ whole_in (flat_value self.entry) }
    {
        match self.number() {
            Some(Number::Whole(whole)) => Some(whole),
            Some(Number::Written(_)) => None,
            None => None,
        }
    }

    /// How many nodes the value has: at least as many as any array in it has items.
    pub fn node_count(self) -> usize
        ensures { (n : ℕ) → result ≤ n → has_long_array n (flat_value self.entry) ≡ false }
    {
        (self.document.after(self.at) - self.at) as usize
    }

    /// The items, where the value is an array.
    pub fn items(self) -> Option<FlatItems<'d>>
        ensures { MatchOption result (IsNoArray (flat_value self.entry))
            (λ i. items_value i ≡ flat_value self.entry) }
    {
        match self.node() {
            FlatNode::Array(_) => Some(FlatItems {
                document: self.document,
                at: self.at + 1,
            }),
            _ => None,
        }
    }

    /// The members in the order of the line, where the value is an object. A name may come more than once:
    /// then the last member of it is the object's.
    pub fn members(self) -> Option<FlatMembers<'d>>
        ensures { MatchOption result (IsNoObject (flat_value self.entry))
            (λ m. members_value m ≡ flat_value self.entry) }
    {
        match self.node() {
            FlatNode::Object(_) => Some(FlatMembers {
                document: self.document,
                at: self.at + 1,
            }),
            _ => None,
        }
    }

    /// How many items the array has, and 0 of any other value. It goes over them.
    pub fn item_count(self) -> u32
        ensures count { result ≡ item_count (flat_value self.entry) }
        ensures short { result ≤ max_line }
    {
        match self.items() {
            Some(items) => items.count(),
            None => 0,
        }
    }

    /// The item at this place, where the value is an array that has one. It goes over those before it.
    pub fn item(self, place: u32) -> Option<FlatValue<'d>>
        ensures { option_map flat_value result ≡ item_of place (flat_value self.entry) }
    {
        match self.items() {
            Some(items) => items.nth(place),
            None => None,
        }
    }

    /// The member of this name, where the value is an object that has one. It goes over all members.
    pub fn member(self, name: &str) -> Option<FlatValue<'d>>
        ensures { option_map flat_value result ≡ member_of (chars name.now) (flat_value self.entry) }
    {
        match self.members() {
            Some(members) => members.last(name),
            None => None,
        }
    }

    /// Whether the value is an array or an object.
    // A descent asks it of each member that it passes.
    #[inline(always)]
    pub fn is_structured(self) -> bool
        ensures { result ≡ is_structured (flat_value self.entry) }
    {
        match self.node() {
            FlatNode::Object(_) => true,
            FlatNode::Array(_) => true,
            _ => false,
        }
    }
}

impl<'d> FlatMember<'d> {
    ghost use Rattle.std.specs.Prelude.{encode_utf8_all};
    ghost use Rattle.std.specs.Str.{chars};
    ghost use Rattle.json.specs.Print.{token_text};
    ghost use Rattle.json.specs.Token.{key};

    /// The name between its quotes and the colon, as they are printed (RFC 8259, 4 and 7), where they stand so
    /// in the line. `None` says nothing.
    // Each name that is written is asked for so.
    #[inline(always)]
    pub fn quoted_name(self) -> Option<&'d [u8]>
        ensures { IfSome result
            (λ s. s.now ≡ token_text (key (encode_utf8_all (chars self.entry.name.now)))) }
    {
        let value = self.value;
        match value.document.node(value.at - 1) {
            FlatNode::Key(from, count) => Some(value.document.quoted_name(from, count)),
            _ => None,
        }
    }
}

impl<'d> FlatItems<'d> {
    ghost use Rattle.std.specs.Prelude.{option_map};
    ghost use Rattle.jp_doc.specs.Json.{Items, array, no_items, add_item};
    ghost use Rattle.jp_doc.specs.Location.{item_of};
    ghost use Rattle.jp_flat.specs.Value.{flat_value, items_value, items_left, item_count};

    /// The first, and those behind it.
    // Each turn of a loop over items takes one so: handed out by a call, it would go by memory.
    #[inline(always)]
    pub fn split_first(self) -> Option<(FlatValue<'d>, FlatItems<'d>)>
        ensures value { MatchOption result (items_value self.entry ≡ array no_items)
            (λ p. (vs : Items) × (items_value self.entry ≡ array (add_item (flat_value p.0) vs))
            × (items_value p.1 ≡ array vs)) }
        ensures fewer { IfSome result (λ p. items_left p.1 < items_left self.entry) }
    {
        let (document, at) = (self.document, self.at);
        match document.node(at) {
            FlatNode::EndArray => None,
            _ => {
                let end = document.after(at);
                let others = FlatItems { document, at: end };
                Some((FlatValue { document, at }, others))
            }
        }
    }

    /// The item at this place of these.
    fn nth(self, place: u32) -> Option<FlatValue<'d>>
        ensures { option_map flat_value result ≡ item_of place (items_value self.entry) }
    {
        let mut left = self;
        for i in 0..place {
            match left.split_first() {
                Some((_, others)) => left = others,
                None => return None,
            }
        }
        match left.split_first() {
            Some((first, _)) => Some(first),
            None => None,
        }
    }

    /// How many these are. It goes over them.
    pub fn count(self) -> u32
        ensures count { result ≡ item_count (items_value self.entry) }
        ensures short { result ≤ max_line }
    {
        let mut count = 0;
        let mut left = self;
        while let Some((_, others)) = left.split_first() {
            count += 1;
            left = others;
        }
        count
    }
}

impl<'d> FlatMembers<'d> {
    ghost use Rattle.std.specs.Prelude.{[], None, option_map, IsUtf8};
    ghost use Rattle.std.specs.Str.{chars};
    ghost use Rattle.jp_flat.specs.Members.{last_of};
    ghost use Rattle.jp_flat.specs.Value.{flat_value, entries, members_left};

    /// The first in the order of the line, and those behind it.
    // As the items' one.
    #[inline(always)]
    pub fn split_first(self) -> Option<(FlatMember<'d>, FlatMembers<'d>)>
        ensures value { MatchOption result (entries self.entry ≡ [])
            (λ p. entries self.entry ≡ (chars p.0.name.now, flat_value p.0.value) ∷ entries p.1) }
        ensures utf8 { IfSome result (λ p. IsUtf8 p.0.name.now) }
        ensures fewer { IfSome result (λ p. members_left p.1 < members_left self.entry) }
    {
        let (document, at) = (self.document, self.at);
        match document.name(document.node(at)) {
            Some(name) => {
                let end = document.after(at + 1);
                let value = FlatValue {
                    document,
                    at: at + 1,
                };
                Some((
                    FlatMember { name, value },
                    FlatMembers { document, at: end },
                ))
            }
            None => None,
        }
    }

    /// The value of the last of these that has the name.
    fn last(self, name: &str) -> Option<FlatValue<'d>>
        ensures { option_map flat_value result ≡ last_of (chars name.now) (entries self.entry) None }
    {
        let mut found = None;
        let mut left = self;
        while let Some((member, others)) = left.split_first() {
            if is_same(name, member.name) {
                found = Some(member.value);
            }
            left = others;
        }
        found
    }
}
