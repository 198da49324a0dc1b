// Laws.
ghost use Rattle.beldi_upkeep.specs.Checked.{BoundsAreOwn, CallersAreShort, DecisionsAreOwn, EffectsAreCarriedOut, FoundBodiesAreRecorded, InstancesAreOfIt, NoBodyIsStranded, NoFirstTurnIsOver, NoRootAtFirst, NoRunIsStranded, NoTurnIsOver, NoTurnStays, NoneIsInside, NotesAreOwn, RootsStayOfIt, RootsStayStarted, ShadowNotesAreOwn, ShadowsAreFree, StartedRootsAreOfIt, UnlocksAreOwned};
ghost use Rattle.beldi_upkeep.specs.Freed.{FreesWhatItHolds, ReturnsHoldNone};
ghost use Rattle.beldi_upkeep.specs.Written.{WantsAreWritten};

/// Where the host has the invariant, nobody owns a shadow.
pub fn shadows_have_no_owner()
    ensures { ShadowsAreFree }
{}

/// Over no rows there is no root, so each is of the deployment, and started by the book.
pub fn no_root_at_first()
    ensures { NoRootAtFirst }
{}

/// Where the host has the invariant and each request is of a function of the deployment, so is each root.
pub fn roots_are_of_the_deployment()
    ensures { RootsStayOfIt }
{}

/// Where the host has the invariant, each root that was bound is one that the book starts.
pub fn roots_are_started()
    ensures { RootsStayStarted }
{}

/// Where the book starts functions of the deployment alone, the roots are of it.
pub fn started_roots_are_of_the_deployment()
    ensures { StartedRootsAreOfIt }
{}

/// Each call and each lock that a body wants is that of a statement in it, and stands in a transaction where the statement does.
pub fn wants_are_written()
    ensures { WantsAreWritten }
{}

/// An instance that stands at an Unlock holds the lock of its item.
pub fn who_frees_holds()
    ensures { FreesWhatItHolds }
{}

/// An instance that returns holds no lock.
pub fn who_returns_holds_none()
    ensures { ReturnsHoldNone }
{}

/// In a deployment that passed the checks, each instance that has a history is of one of its functions.
pub fn instances_are_of_the_deployment()
    ensures { InstancesAreOfIt }
{}

/// An item has no note at the place of a live run but that of the effect that the run is at.
pub fn notes_are_own()
    ensures { NotesAreOwn }
{}

/// A shadow has no note at the place of a live run but that of the effect that the run is at.
pub fn shadow_notes_are_own()
    ensures { ShadowNotesAreOwn }
{}

/// The decision that is kept where a live run ends its transaction is the run's own.
pub fn decisions_are_own()
    ensures { DecisionsAreOwn }
{}

/// A live run that is to free a lock owns it, unless it was freed at its place before.
pub fn unlocks_are_owned()
    ensures { UnlocksAreOwned }
{}

/// In a deployment that passed the checks nothing is locked, freed or left to itself inside a transaction, nor by who was called in one.
pub fn nothing_is_locked_inside()
    ensures { NoneIsInside }
{}

/// Who is to begin a transaction is in none, and who is to end one is in its own.
pub fn bounds_are_own()
    ensures { BoundsAreOwn }
{}

/// In a deployment that passed the checks no call is made by who has an id of 63 hops.
pub fn callers_are_short()
    ensures { CallersAreShort }
{}

/// In a deployment that passed the checks, each effect that an instance comes to is carried out, or takes no turn: no id is too long
/// for a call, nothing is locked, freed or left to itself inside a transaction, and who is to end one has begun it.
pub fn effects_are_carried_out()
    ensures { EffectsAreCarriedOut }
{}

/// In such a deployment a live run that has begun goes on from any answer.
pub fn no_run_is_stranded()
    ensures { NoRunIsStranded }
{}

/// In such a deployment a run begins with each body that is known of its instance.
pub fn no_body_is_stranded()
    ensures { NoBodyIsStranded }
{}

/// In such a deployment the turn of a live run that has begun is over only at the stage that closes its intent.
pub fn no_turn_is_over()
    ensures { NoTurnIsOver }
{}

/// No turn of a live run that has begun leaves it where it stood, but for a visit at the end of a transaction: it waits, or goes on.
pub fn no_turn_stays()
    ensures { NoTurnStays }
{}

/// The body that a run finds before it has begun is that of its instance, and of its function.
pub fn found_bodies_are_recorded()
    ensures { FoundBodiesAreRecorded }
{}

/// In a deployment that passed the checks a run begins with the body that it finds.
pub fn no_first_turn_is_over()
    ensures { NoFirstTurnIsOver }
{}
