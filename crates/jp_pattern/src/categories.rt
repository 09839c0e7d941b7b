//! The names of general categories.

ghost use Rattle.std.specs.Prelude.{◌≡◌, option_map};
ghost use Rattle.std.specs.Str.{bytes_eq};
ghost use Rattle.jp_pattern.specs.inner.Reading as reading;

use unicode::properties::GeneralCategory;

/// A name, and the categories that it means.
type Named = (&'static [char], &'static [GeneralCategory]);

/// Each name (RFC 9485, 3: IsCategory).
const NAMES: [Named; 36] = [
    (
        &['L'],
        &[
            GeneralCategory::LowercaseLetter,
            GeneralCategory::ModifierLetter,
            GeneralCategory::OtherLetter,
            GeneralCategory::TitlecaseLetter,
            GeneralCategory::UppercaseLetter,
        ],
    ),
    (&['L', 'l'], &[GeneralCategory::LowercaseLetter]),
    (&['L', 'm'], &[GeneralCategory::ModifierLetter]),
    (&['L', 'o'], &[GeneralCategory::OtherLetter]),
    (&['L', 't'], &[GeneralCategory::TitlecaseLetter]),
    (&['L', 'u'], &[GeneralCategory::UppercaseLetter]),
    (
        &['M'],
        &[
            GeneralCategory::SpacingMark,
            GeneralCategory::EnclosingMark,
            GeneralCategory::NonspacingMark,
        ],
    ),
    (&['M', 'c'], &[GeneralCategory::SpacingMark]),
    (&['M', 'e'], &[GeneralCategory::EnclosingMark]),
    (&['M', 'n'], &[GeneralCategory::NonspacingMark]),
    (
        &['N'],
        &[
            GeneralCategory::DecimalNumber,
            GeneralCategory::LetterNumber,
            GeneralCategory::OtherNumber,
        ],
    ),
    (&['N', 'd'], &[GeneralCategory::DecimalNumber]),
    (&['N', 'l'], &[GeneralCategory::LetterNumber]),
    (&['N', 'o'], &[GeneralCategory::OtherNumber]),
    (
        &['P'],
        &[
            GeneralCategory::ConnectorPunctuation,
            GeneralCategory::DashPunctuation,
            GeneralCategory::ClosePunctuation,
            GeneralCategory::FinalPunctuation,
            GeneralCategory::InitialPunctuation,
            GeneralCategory::OtherPunctuation,
            GeneralCategory::OpenPunctuation,
        ],
    ),
    (&['P', 'c'], &[GeneralCategory::ConnectorPunctuation]),
    (&['P', 'd'], &[GeneralCategory::DashPunctuation]),
    (&['P', 'e'], &[GeneralCategory::ClosePunctuation]),
    (&['P', 'f'], &[GeneralCategory::FinalPunctuation]),
    (&['P', 'i'], &[GeneralCategory::InitialPunctuation]),
    (&['P', 'o'], &[GeneralCategory::OtherPunctuation]),
    (&['P', 's'], &[GeneralCategory::OpenPunctuation]),
    (
        &['Z'],
        &[
            GeneralCategory::LineSeparator,
            GeneralCategory::ParagraphSeparator,
            GeneralCategory::SpaceSeparator,
        ],
    ),
    (&['Z', 'l'], &[GeneralCategory::LineSeparator]),
    (&['Z', 'p'], &[GeneralCategory::ParagraphSeparator]),
    (&['Z', 's'], &[GeneralCategory::SpaceSeparator]),
    (
        &['S'],
        &[
            GeneralCategory::CurrencySymbol,
            GeneralCategory::ModifierSymbol,
            GeneralCategory::MathSymbol,
            GeneralCategory::OtherSymbol,
        ],
    ),
    (&['S', 'c'], &[GeneralCategory::CurrencySymbol]),
    (&['S', 'k'], &[GeneralCategory::ModifierSymbol]),
    (&['S', 'm'], &[GeneralCategory::MathSymbol]),
    (&['S', 'o'], &[GeneralCategory::OtherSymbol]),
    (
        &['C'],
        &[
            GeneralCategory::Control,
            GeneralCategory::Format,
            GeneralCategory::Unassigned,
            GeneralCategory::PrivateUse,
        ],
    ),
    (&['C', 'c'], &[GeneralCategory::Control]),
    (&['C', 'f'], &[GeneralCategory::Format]),
    (&['C', 'n'], &[GeneralCategory::Unassigned]),
    (&['C', 'o'], &[GeneralCategory::PrivateUse]),
];

/// Whether two names are the same.
fn are_same(left: &[char], right: &[char]) -> bool
    ensures { result ≡ bytes_eq left.now right.now }
{
    left == right
}

/// The categories of a name (RFC 9485, 3: IsCategory).
pub(crate) fn categories_named(name: &[char]) -> Option<&'static [GeneralCategory]>
    ensures { option_map (λ x. x.now) result ≡ reading.categories_named name.now }
{
    for (known, categories) in &NAMES {
        if are_same(known, name) {
            return Some(*categories);
        }
    }
    None
}
