ghost use Rattle.std.specs.Prelude.{◌≡◌, List, ◌++◌};
ghost use Rattle.tpm_bindings.specs.Held.{all_are, any_of, are_one, held, listed};

/// What several values say together: nothing, where there is none, one value, or several that differ.
#[derive(Clone, Copy)]
pub enum Held<T> {
    /// There is no value.
    Nothing,
    /// Every value is this one.
    One(T),
    /// There are two values that differ.
    Several,
}

impl<T: Copy + Eq> Held<T> {
    /// Adds one more value, if there is one.
    pub fn add(&mut self, value: Option<T>)
        ensures { (values : List T) → self.old ≡ held T.eq values
            → self.new ≡ held T.eq (values ++ listed value) }
    {
        let Some(value) = value else {
            return;
        };
        match self {
            Held::Nothing => *self = Held::One(value),
            Held::One(first) if *first == value => {}
            Held::One(_) | Held::Several => *self = Held::Several,
        }
    }

    /// Whether each of the values is this one.
    pub fn all_are(self, value: T) -> bool
        ensures { (values : List T) → self ≡ held T.eq values → result ≡ all_are T.eq value values }
    {
        match self {
            Held::Nothing => true,
            Held::One(first) => value == first,
            Held::Several => false,
        }
    }

    /// Whether there is a value.
    pub fn is_any(self) -> bool
        ensures { (values : List T) → self ≡ held T.eq values → result ≡ any_of values }
    {
        match self {
            Held::Nothing => false,
            Held::One(_) | Held::Several => true,
        }
    }

    /// Whether no two of the values differ.
    pub fn is_one(self) -> bool
        ensures { (values : List T) → self ≡ held T.eq values → result ≡ are_one T.eq values }
    {
        match self {
            Held::Nothing | Held::One(_) => true,
            Held::Several => false,
        }
    }
}
