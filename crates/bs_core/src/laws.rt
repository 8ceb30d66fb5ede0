//! Laws of the store machine, each the contract of a function that does nothing.
ghost use Rattle.bs_core.specs.Laws.{OpeningIsCanonical, EventsKeepCanonical, EqualNamesAreEqualCodes, NamesDecideIsomorphism, LiveNamesKeepTheirTrees, OtherListsStay, KeepIsHoldThenGive, NotAllowedChangesNothing, KeysDecideCodes};

/// The opening state is canonical, and each event, allowed or not, keeps a canonical state.
pub fn events_keep_canonical_states()
    ensures opening { OpeningIsCanonical }
    ensures event { EventsKeepCanonical }
    ensures refused { NotAllowedChangesNothing }
{}

/// Over every list of events, names that are held are equal exactly where the trees are isomorphic, and keep their trees while they live.
pub fn names_decide_isomorphism()
    ensures each_state { EqualNamesAreEqualCodes }
    ensures each_run { NamesDecideIsomorphism }
    ensures kept { LiveNamesKeepTheirTrees }
{}

/// An event changes the lists of the parties that it names, and no other.
pub fn other_lists_stay()
    ensures { OtherListsStay }
{}

/// A keep is a hold and then a give.
pub fn keep_is_hold_then_give()
    ensures { KeepIsHoldThenGive }
{}

/// In a canonical state the key of a code is found exactly where the code is.
pub fn keys_decide_codes()
    ensures { KeysDecideCodes }
{}
