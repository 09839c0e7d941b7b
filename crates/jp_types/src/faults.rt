//! The faults of the parts of a query.

/// Which faults a part of a query has.
#[derive(Clone, Copy)]
pub struct Faults {
    /// Some number literal has a fraction or an exponent.
    pub fraction: bool,
    /// Some number is out of its range, where literals are whole numbers of at most 38 digits.
    pub out_of_range: bool,
    /// Some number is out of its range, where literals are numbers of JSON of at most 1,000 digits and 9
    /// digits of an exponent.
    pub over_limits: bool,
    /// Some function is unknown or not used as its type allows.
    pub ill_typed: bool,
}

impl Faults {
    ghost use Rattle.std.specs.Prelude.{◌≡◌, []};
    ghost use Rattle.jp_types.specs.Faults.{faults_of, joined};

    /// No fault.
    pub(crate) const NONE: Faults = Faults {
        fraction: false,
        out_of_range: false,
        over_limits: false,
        ill_typed: false,
    };

    /// The faults of a part with no numbers, which is used as its type allows or not.
    pub(crate) fn of_use(fits: bool) -> Faults
        ensures { result ≡ faults_of [] fits }
    {
        Faults {
            ill_typed: !fits,
            ..Faults::NONE
        }
    }

    /// The faults of this part and of another together.
    pub(crate) fn with(self, other: Faults) -> Faults
        ensures { result ≡ joined self other }
    {
        Faults {
            fraction: self.fraction | other.fraction,
            out_of_range: self.out_of_range | other.out_of_range,
            over_limits: self.over_limits | other.over_limits,
            ill_typed: self.ill_typed | other.ill_typed,
        }
    }
}
