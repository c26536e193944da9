//! What is looked up of all nets, once for all rounds.
ghost use Rattle.std.specs.Prelude.{◌≡◌, ◌<◌, pos, ◌+ℤ◌, ◌≤ℤ◌, length, IfOk, IsTrue};
ghost use Rattle.gr_base.specs.Designs.{is_routed};
ghost use Rattle.net_order.specs.Freedoms.{in_round, IsOfNet};
ghost use Rattle.net_order.specs.Orders.{net_in, IsKey};
ghost use Rattle.net_order.specs.Surveys.{AreOfNets};

use crate::traits::{NO_TRAITS, Traits, traits_of};
use beside_calls::for_each_beside;
use gr_base::Design;
use std::alloc::{AllocError, Global};
use std::thread::Threads;

/// How many numbers there are for nets. A net behind another number is one number with it, so that nets are
/// compared without a call.
pub(crate) const NUMBERS: u64 = 4_294_967_296;

/// By how much the least i32 lies below 0.
const BELOW: i64 = 2_147_483_648;

/// What is looked up of all nets, by net.
///
/// That is done once for all rounds: nets lie scattered in memory, so that it takes longer than to sort.
#[derive(Drop)]
pub struct Survey<'a> {
    pub design: &'a Design,
    nets: Vec<Traits>,
    ghost looked_up: { AreOfNets design.now nets.items },
}

impl<'a> Survey<'a> {
    /// A survey of a design's nets, by at most so many threads. The only error is want of memory.
    pub fn of<R: Threads + Sync>(
        rt: &R,
        alloc: Global,
        design: &'a Design,
        threads: u32,
    ) -> Result<Survey<'a>, AllocError>
        requires { 0 < threads }
        ensures { IfOk result (λ survey. survey.design.now ≡ design.now) }
    {
        let mut nets = vec![in alloc; NO_TRAITS; design.nets() as usize]?;
        look_at_each(rt, design, threads, &mut nets);
        Ok(Survey { design, nets })
    }

    /// A net behind the place of its driver.
    pub(crate) fn behind_place(&self, net: u32) -> u64
        requires { IsTrue (is_routed self.now.design.now net) }
        ensures { net_in result ≡ net }
    {
        u64::from(self.traits(net).place) * NUMBERS + u64::from(net)
    }

    /// A net behind the number by which the nets of a round go: the net's freedom in round 0, where those
    /// that can go another way find what the others left, and its opposite later, where they leave what is
    /// overfull before others have to go far.
    pub(crate) fn behind_turn(&self, round: u32, net: u32) -> u64
        requires { IsTrue (is_routed self.now.design.now net) }
        ensures key { IsKey self.now.design.now round result }
        ensures net { net_in result ≡ net }
    {
        raised(turn(round, self.traits(net).freedom)) * NUMBERS + u64::from(net)
    }

    /// What is looked up of a net.
    fn traits(&self, net: u32) -> Traits
        requires { IsTrue (is_routed self.now.design.now net) }
        ensures { IsOfNet self.now.design.now net result.freedom }
    {
        self.nets[net as usize]
    }
}

/// A net's freedom in round 0, and its opposite later.
fn turn(round: u32, freedom: i32) -> i64
    ensures { result ≡ in_round round freedom }
{
    let free = i64::from(freedom);
    if round == 0 { free } else { -free }
}

/// A number, raised by so much that it isn't below 0.
fn raised(turn: i64) -> u64
    requires least { pos 0 ≤ℤ (turn +ℤ pos 2147483648) }
    requires most { turn ≤ℤ pos 2147483647 }
    ensures { pos result ≡ turn +ℤ pos 2147483648 }
{
    (turn + BELOW) as u64
}

/// Looks at the nets, by at most so many threads.
fn look_at_each<R: Threads + Sync>(rt: &R, design: &Design, threads: u32, nets: &mut Vec<Traits>)
    requires threads { 0 < threads }
    requires nets { length nets.old.items ≡ length design.now.nets }
    ensures { AreOfNets design.now nets.new.items }
{
    for_each_beside(
        rt,
        nets.as_mut_slice(),
        threads as usize,
        &|net, traits: &mut Traits|
            requires { net < length design.now.nets }
            ensures { IsOfNet design.entry.now net traits.exit.now.freedom }
        {
            let within = net < design.nets() as usize;
            prove!(within);
            *traits = traits_of(design, net as u32);
        },
    );
}
