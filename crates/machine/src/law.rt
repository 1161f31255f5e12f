//! The machine is TSO.

ghost use Rattle.std.specs.Prelude.{ℕ, List};
ghost use Rattle.program.specs.declared.op.Op.{Op};
ghost use Rattle.machine.specs.declared.step.Step.{Step};
ghost use Rattle.program.specs.declared.fault.Fault.{Fault};
ghost use Rattle.machine.specs.OneRow.{EveryFaultChangesOneRow};
ghost use Rattle.machine.specs.Orderly.{EveryRunIsTso, EveryRunIsWellFormed, EveryStateIsOrderly};

/// Where a run without fault is complete, whatever its program, its initial values, its capacity and
/// its steps, the order of what it performed is one that TSO allows for its recording. Under every
/// fault the recording of a complete run is well formed. It does nothing.
pub fn every_run_is_tso()
    ensures tso { (program : List (List Op)) (init : List ℕ) (capacity : ℕ) (steps : List Step)
        → EveryRunIsTso program init capacity steps }
    ensures well_formed { (program : List (List Op)) (init : List ℕ) (capacity : ℕ) (fault : Fault)
        (steps : List Step)
        → EveryRunIsWellFormed program init capacity fault steps }
{}

/// Whatever its program, its initial values, its capacity and its steps, a run without fault leads to a
/// state in which what cores have executed was performed or waits as a store, in the order that TSO
/// keeps. It does nothing.
pub fn every_state_is_orderly()
    ensures { (program : List (List Op)) (init : List ℕ) (capacity : ℕ) (steps : List Step)
        → EveryStateIsOrderly program init capacity steps }
{}

/// What holds of the faults. It does nothing.
pub(crate) fn faults_change_one_row()
    ensures { EveryFaultChangesOneRow }
{}
