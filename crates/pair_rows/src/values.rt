/// What a variable gives on its own.
#[derive(Clone, Copy, Debug)]
pub struct UnitValues {
    /// Where it is 0.
    pub if_no: i64,
    /// Where it is 1.
    pub if_yes: i64,
    /// What neither exceeds.
    pub most: i64,
}

impl UnitValues {
    /// A variable that gives nothing.
    pub const NONE: UnitValues = UnitValues {
        if_no: 0,
        if_yes: 0,
        most: 0,
    };
}

/// What two different variables give together, by the value of the first, then by that of the second.
#[derive(Clone, Copy, Debug)]
pub struct PairValues {
    /// Where both are 0.
    pub no_no: i64,
    /// Where only the second is 1.
    pub no_yes: i64,
    /// Where only the first is 1.
    pub yes_no: i64,
    /// Where both are 1.
    pub yes_yes: i64,
    /// What none of the four exceeds.
    pub most: i64,
}

impl PairValues {
    /// Two variables that give nothing together.
    pub const NONE: PairValues = PairValues {
        no_no: 0,
        no_yes: 0,
        yes_no: 0,
        yes_yes: 0,
        most: 0,
    };
}
