//! The list of all control points, and the label of each.

ghost use Rattle.std.specs.Prelude.{◌≡◌, ◌≢◌, ◌≤◌, IfSome, IfNone, length};
ghost use Rattle.rd_actor.specs.declared.actors.Pc.{Pc as Point};
ghost use Rattle.rd_actor.specs.Labels.{label};

use super::actors::Pc;

impl Pc {
    /// All control points, each once, in the order of the table.
    pub const ALL: [Pc; 34] = [
        Pc::Idle,
        Pc::E1,
        Pc::E2,
        Pc::E3,
        Pc::E4,
        Pc::E5,
        Pc::E6,
        Pc::E7,
        Pc::E8,
        Pc::E9,
        Pc::E10,
        Pc::E11,
        Pc::E12,
        Pc::E13,
        Pc::E14,
        Pc::Q1,
        Pc::Q2,
        Pc::Q3,
        Pc::Q4,
        Pc::Q5,
        Pc::Q6,
        Pc::Q7,
        Pc::Q8,
        Pc::Q9,
        Pc::Q10,
        Pc::Q11,
        Pc::Q12,
        Pc::Q13,
        Pc::Q14,
        Pc::A1,
        Pc::A2,
        Pc::B1,
        Pc::B2,
        Pc::B3,
    ];

    /// Returns the control point with this label, or none if no control point has it.
    pub fn of_label(word: &str) -> Option<Pc>
        ensures some { IfSome result (λ pc. label pc ≡ word.now) }
        ensures none { IfNone result ((pc : Point) → label pc ≢ word.now) }
    {
        for pc in Pc::ALL {
            if pc.label() == word {
                return Some(pc);
            }
        }
        None
    }

    /// Returns the label of the control point, as the table has it, of at most 4 characters.
    pub fn label(self) -> &'static str
        ensures name { result.now ≡ label self }
        ensures len { length result.now ≤ 4 }
    {
        match self {
            Pc::Idle => "Idle",
            Pc::E1 => "E1",
            Pc::E2 => "E2",
            Pc::E3 => "E3",
            Pc::E4 => "E4",
            Pc::E5 => "E5",
            Pc::E6 => "E6",
            Pc::E7 => "E7",
            Pc::E8 => "E8",
            Pc::E9 => "E9",
            Pc::E10 => "E10",
            Pc::E11 => "E11",
            Pc::E12 => "E12",
            Pc::E13 => "E13",
            Pc::E14 => "E14",
            Pc::Q1 => "Q1",
            Pc::Q2 => "Q2",
            Pc::Q3 => "Q3",
            Pc::Q4 => "Q4",
            Pc::Q5 => "Q5",
            Pc::Q6 => "Q6",
            Pc::Q7 => "Q7",
            Pc::Q8 => "Q8",
            Pc::Q9 => "Q9",
            Pc::Q10 => "Q10",
            Pc::Q11 => "Q11",
            Pc::Q12 => "Q12",
            Pc::Q13 => "Q13",
            Pc::Q14 => "Q14",
            Pc::A1 => "A1",
            Pc::A2 => "A2",
            Pc::B1 => "B1",
            Pc::B2 => "B2",
            Pc::B3 => "B3",
        }
    }
}
