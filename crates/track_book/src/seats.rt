//! Steps of seats that stay in their place.
ghost use Rattle.std.specs.Prelude.{◌≡◌, ◌^◌, ◌<◌, [], ◌∷◌, ◌++◌, length};
ghost use mathlib.Core.List.{IsPrefix};
ghost use Rattle.book_front.specs.Seats.{word_of};
ghost use Rattle.track_book.specs.SeatOptions.{view_in, HasKeeper, HasPass};
ghost use Rattle.book_state.specs.Entries.{calls_of};

use book_front::{Front, PassSeat};
use book_state::Entry;

/// The pass adds an entry to the history.
pub(crate) fn append(
    front: &Front,
    keeper: &mut Option<PassSeat>,
    seat: &mut Option<PassSeat>,
    entry: &Entry,
)
    requires keeper { HasKeeper (word_of front.now) keeper.old }
    requires pass { HasPass (word_of front.now) seat.old }
    requires number { entry.now.number ≡ (view_in seat.old).number }
    requires few { length (view_in keeper.old).seen < 2 ^ 62 }
    ensures keeper { HasKeeper (word_of front.now) keeper.new }
    ensures pass { HasPass (word_of front.now) seat.new }
    ensures number { (view_in seat.new).number ≡ (view_in seat.old).number }
    ensures begins { IsPrefix (view_in seat.old).seen (view_in keeper.old).seen }
    ensures seen { (view_in seat.new).seen ≡ (view_in keeper.old).seen ++ entry.now ∷ [] }
    ensures mine { (view_in seat.new).mine ≡ (view_in seat.old).mine ++ entry.now ∷ [] }
    ensures calls { (view_in seat.new).mine ≡ calls_of (view_in seat.old).number (view_in seat.new).seen }
    ensures list { (view_in keeper.new).seen ≡ (view_in seat.new).seen }
    ensures made { (view_in keeper.new).made ≡ (view_in keeper.old).made }
{
    let Some(the_keeper) = keeper.take() else {
        unreachable!()
    };
    let Some(the_seat) = seat.take() else {
        unreachable!()
    };
    let (the_keeper, the_seat) = front.append(the_keeper, the_seat, entry);
    *keeper = Some(the_keeper);
    *seat = Some(the_seat);
}

/// The pass sees the whole history.
pub(crate) fn learn(front: &Front, keeper: &mut Option<PassSeat>, seat: &mut Option<PassSeat>)
    requires keeper { HasKeeper (word_of front.now) keeper.old }
    requires pass { HasPass (word_of front.now) seat.old }
    ensures keeper { HasKeeper (word_of front.now) keeper.new }
    ensures pass { HasPass (word_of front.now) seat.new }
    ensures number { (view_in seat.new).number ≡ (view_in seat.old).number }
    ensures begins { IsPrefix (view_in seat.old).seen (view_in keeper.old).seen }
    ensures seen { (view_in seat.new).seen ≡ (view_in keeper.old).seen }
    ensures mine { (view_in seat.new).mine ≡ (view_in seat.old).mine }
    ensures calls { (view_in seat.new).mine ≡ calls_of (view_in seat.old).number (view_in seat.new).seen }
    ensures list { (view_in keeper.new).seen ≡ (view_in keeper.old).seen }
    ensures made { (view_in keeper.new).made ≡ (view_in keeper.old).made }
{
    let Some(the_keeper) = keeper.take() else {
        unreachable!()
    };
    let Some(the_seat) = seat.take() else {
        unreachable!()
    };
    let (the_keeper, the_seat) = front.learn(the_keeper, the_seat);
    *keeper = Some(the_keeper);
    *seat = Some(the_seat);
}
