//! What an edge costs for being nearly full, without a division.
ghost use Rattle.std.specs.Prelude.{◌≡◌, ◌+◌, ◌*◌, ◌/◌, ◌<◌, ◌≤◌};
ghost use Rattle.cost_rules.specs.Formulas.{scarcity as scarcity_of};
ghost use Rattle.gr_base.specs.Limits.{most_width};
ghost use Rattle.net_plan.specs.Sites.{halved};

/// A number that is to be halved for each net that so much free room holds.
#[derive(Clone, Copy)]
struct Halving {
    number: u32,
    room: u32,
}

impl Halving {
    /// Halves the number for each of so many nets, where the room holds them all.
    #[inline(always)]
    fn by(self, nets: u32, need: u32) -> Halving
        requires some { 1 ≤ need }
        requires need { need ≤ 2 * most_width }
        requires nets { nets ≤ 16 }
        ensures same { halved result.number result.room need ≡ halved self.number self.room need }
        ensures number { result.number ≤ self.number }
        ensures room { self.room < 2 * nets * need → result.room < nets * need }
    {
        let wanted = nets * need;
        if self.room < wanted {
            return self;
        }
        Halving {
            number: self.number >> nets,
            room: self.room - wanted,
        }
    }
}

/// What a net that needs so much pays for so many marks at an edge with so much free room beside it. Only
/// halvings make it, which processors do for several edges at a time.
#[inline(always)]
pub(crate) fn scarcity(marks: u16, room: u32, need: u32) -> u32
    requires some { 1 ≤ need }
    requires need { need ≤ 2 * most_width }
    ensures value { result ≡ scarcity_of marks (room / need) }
    ensures most { result ≤ 4 * (marks + 1) }
{
    let number = 4 * (u32::from(marks) + 1);
    // As much room leaves nothing of it.
    let room = room.min(31 * need);
    let all = Halving { number, room };
    let few = all.by(16, need).by(8, need).by(4, need).by(2, need);
    few.by(1, need).number
}
