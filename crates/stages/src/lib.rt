// A refusal, and what a search for a fault finds: the first place at which a test fails, where there is one, as an `Option`.
#![tactic(auto)]

ghost use Rattle.std.specs.Prelude.{◌≡◌};

use std::fmt;
use std::marker::Model;

// What is broken: the frame or a row of one of the files, a rule of the clearing, the room, or what a look-up asks for.
#[derive(Clone, Copy, Debug, PartialEq, Eq)]
pub enum Broken {
    DayCutOff = 1,
    DayCount = 2,
    DayRow = 3,
    DayGoesOn = 4,
    ClearingCutOff = 5,
    ClearingCount = 6,
    ClearingRow = 7,
    ClearingGoesOn = 8,
    Price = 11,
    Capacity = 12,
    Quantity = 13,
    Balance = 14,
    Step = 15,
    Line = 16,
    Block = 17,
    Room = 18,
    Section = 19,
    Ratio = 20,
    Whole = 21,
}

// The rule paper's number of it.
impl From<Broken> for u8 {
    ghost use Rattle.std.specs.Prelude.{◌≡◌};
    ghost use Rattle.stages.specs.Number.{number};

    ghost from_gives = { λ broken n. n ≡ number broken };

    fn from(broken: Broken) -> u8 {
        broken as u8
    }
}

// A place, as a refusal names it. The third number is the field's, where a row breaks its rule, and else 0.
#[derive(Clone, Copy, Debug, PartialEq, Eq)]
pub struct Place {
    pub first: usize,
    pub second: usize,
    pub third: usize,
}

impl Place {
    ghost use Rattle.stages.specs.Stage.{place, field_place};

    pub fn new(first: usize, second: usize) -> Self
        ensures { result ≡ place first second }
    {
        Place::of_field(first, second, 0)
    }

    pub fn of_field(first: usize, second: usize, field: usize) -> Self
        ensures { result ≡ field_place first second field }
    {
        Place {
            first,
            second,
            third: field,
        }
    }
}

// Its three numbers, with a space between two.
impl fmt::Display for Place {
    ghost use Rattle.std.specs.Prelude.{Some};
    ghost use Rattle.stages.specs.Text.{place_text};

    ghost output = { λ place. Some (place_text place) };

    fn fmt<W: fmt::Write>(&self, f: &mut fmt::Formatter<W>) -> fmt::Result {
        write!(f, "{} {} {}", self.first, self.second, self.third)
    }
}

// Why something is refused: what is broken, and where. A clause sees the rule paper's number and the place.
#[derive(Clone, Copy, Debug, PartialEq, Eq)]
pub struct Refusal {
    broken: Broken,
    place: Place,
}

impl Model for Refusal {
    ghost use Rattle.std.specs.Prelude.{ℕ};
    ghost use Rattle.stages.specs.declared.Place.{Place};

    ghost Value = { ℕ × Place };

    ghost use Rattle.stages.specs.Number.{number, broken_by, number_back};

    ghost view = { λ r. (number r.broken, r.place) };

    ghost inverse = { λ v. record { broken = broken_by v.0; place = v.1 } };

    ghost inverse_ok = { λ r h. rw (number_back r.broken) };
}

impl Refusal {
    ghost use Rattle.stages.specs.Number.{number};

    pub fn new(broken: Broken, place: Place) -> Self
        ensures { result ≡ (number broken, place) }
    {
        Refusal { broken, place }
    }

    pub fn broken(self) -> Broken
        ensures { number result ≡ self.0 }
    {
        self.broken
    }

    // The rule paper's number of what is broken.
    pub fn number(self) -> u8
        ensures { result ≡ self.0 }
    {
        self.broken.into()
    }

    pub fn place(self) -> Place
        ensures { result ≡ self.1 }
    {
        self.place
    }
}

// The rule paper's number and the place, as a pair.
impl From<Refusal> for (u8, Place) {
    ghost use Rattle.std.specs.Prelude.{◌≡◌};

    ghost from_gives = { λ refusal pair. pair ≡ refusal };

    fn from(refusal: Refusal) -> (u8, Place) {
        (refusal.number(), refusal.place())
    }
}

// The rule paper's number, and behind a space the place.
impl fmt::Display for Refusal {
    ghost use Rattle.std.specs.Prelude.{Some};
    ghost use Rattle.stages.specs.Text.{refusal_text};

    ghost output = { λ refusal. Some (refusal_text refusal) };

    fn fmt<W: fmt::Write>(&self, f: &mut fmt::Formatter<W>) -> fmt::Result {
        write!(f, "{} {}", self.number(), self.place())
    }
}
