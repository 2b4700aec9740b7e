//! Where a selector stands among the records of a buffer.
ghost use Rattle.std.specs.Prelude.{◌≡◌, Some, not};
ghost use Rattle.chat_change.specs.Record.{Record};
ghost use Rattle.chat_history.specs.Cut.{is_after as is_after_cut};
ghost use Rattle.chat_query.specs.Page.{Point, is_before, is_after};

use chat_change::Moment;
use chat_state::{Cut, Spot};

/// A moment, or the spot of a message.
#[derive(Drop)]
pub(crate) enum SelectorPoint {
    Moment(Moment),
    Message(Spot),
}

ghost use Rattle.chat_page.specs.Point.{value_of};

/// The cut below what stands at the point.
pub(crate) fn under(point: &SelectorPoint) -> Cut<'_>
    ensures { (p : Point) → value_of point.now ≡ Some p → (r : Record) → not
        (is_after_cut result r) ≡ is_before p r }
{
    match point {
        SelectorPoint::Moment(at) => Cut::UnderTime(*at),
        SelectorPoint::Message(spot) => Cut::UnderMsg(spot),
    }
}

/// The cut above what stands at the point.
pub(crate) fn over(point: &SelectorPoint) -> Cut<'_>
    ensures { (p : Point) → value_of point.now ≡ Some p → (r : Record) → is_after_cut result r
        ≡ is_after p r }
{
    match point {
        SelectorPoint::Moment(at) => Cut::OverTime(*at),
        SelectorPoint::Message(spot) => Cut::OverMsg(spot),
    }
}
