//! A law of the definitions. Its contract is the law, and its body does nothing.
ghost use Rattle.std.specs.Prelude.{◌≡◌, ◌+◌, ◌≤◌, ℕ, Some, None, nat_lt, if◌then◌else◌};
ghost use Rattle.node_events.specs.declared.clocks.Clocks.{Clocks};
ghost use Rattle.node_events.specs.declared.clocks.Leap.TheVariants.{Ahead, Back};
ghost use Rattle.node_events.specs.ClockWatch.{leap, after, set_ahead, set_back};
ghost use Rattle.node_events.specs.declared.clock_watch.TheConstants.{MOST};

/// However long it is between two looks, the wall clock leapt by what it was set by meanwhile, and only where that is more
/// than five minutes.
pub fn a_leap_is_what_the_clock_was_set_by()
    ensures ahead { (clocks : Clocks) (time by : ℕ) →
        leap clocks (set_ahead by (after time clocks))
        ≡ (if nat_lt MOST by then Some (Ahead by) else None) }
    ensures back { (clocks : Clocks) (time by : ℕ) → by ≤ clocks.wall + time →
        leap clocks (set_back by (after time clocks))
        ≡ (if nat_lt MOST by then Some (Back by) else None) }
{}
