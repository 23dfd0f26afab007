//! Laws of the definitions.

ghost use Rattle.turn_journal.specs.Laws.{AnAreaHoldsOneLog, WhatIsFoundIsNotBad};

/// An area holds one list of payloads.
pub fn an_area_holds_one_log()
    ensures { AnAreaHoldsOneLog }
{}

/// What a scan may find, and what makes a frame bad, exclude each other.
pub fn what_is_found_is_not_bad()
    ensures { WhatIsFoundIsNotBad }
{}
