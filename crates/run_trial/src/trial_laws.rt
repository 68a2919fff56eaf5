//! Laws of this crate's definitions, each shown by a function that does nothing.

ghost use Rattle.run_trial.specs.Laws as law;

/// The folder of a trial holds its near mailbox.
pub fn folder_holds_its_mailbox()
    ensures { law.FolderHolds }
{}

/// The shelf of a trial holds its state, and no journal where the trial has none.
pub fn shelf_holds_its_state()
    ensures { law.ShelfHolds }
{}

/// Devices that a fault has left underway stand at the same opening in another run over them, or their run is over.
pub fn devices_stand_again()
    ensures { law.StandAgain }
{}

/// A run that a fault has ended is interrupted, so that another run over its devices goes on from what it left.
pub fn faults_interrupt()
    ensures { law.FaultsInterrupt }
{}

/// What is printed of devices is the one world that they hold.
pub fn printed_worlds_are_held()
    ensures { law.PrintedIsHeld }
{}
