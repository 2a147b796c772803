//! How a command ends.

ghost use Rattle.std.specs.Prelude.{◌≡◌};
ghost use Rattle.spf_top.specs.Command.{IsOfBytes};
ghost use Rattle.spf_top.specs.Outcome.{calc_refused, plan_refused, refused, script_refused, shape_refused, status_of, walk_refused};

use spf_access::AccessFault;
use spf_base::{Name, Place};
use spf_calc::CalcFault;
use spf_input::InputFault;
use spf_lex::TextKind;
use spf_plan::PlanFault;
use spf_script::ScriptFault;
use spf_space::Unit;
use spf_store::ShapeFault;

/// What there is too much of.
#[derive(Clone, Copy, Debug, PartialEq, Eq)]
pub enum What {
    /// The bytes of the input.
    Bytes,
    /// The units of work, in all steps together.
    Units,
    /// The turns of inner loops and the accesses, in all steps together.
    Visits,
    /// The parts of a tiling.
    Tiles,
}

/// How a command ended.
#[derive(Drop)]
pub enum Outcome {
    /// The whole text was written.
    Done,
    /// Memory ran out.
    Memory,
    /// The word with this number, from 1, is the first that no accepted list of words has there.
    Usage {
        word: u32,
    },
    /// The source failed.
    ReadFault,
    /// The sink failed; a front of the text was written.
    WriteFault,
    /// No token stands there, or the token there, or the end, is the first that no bundle has there, or no calculator text.
    Text {
        place: Place,
        kind: TextKind,
    },
    /// The token there breaks this rule of kernels.
    Kernel {
        place: Place,
        rule: u32,
    },
    /// What is given for this name breaks this rule of inputs, at this place of its list.
    Input {
        name: Name,
        place: u32,
        rule: u32,
    },
    /// In this iteration of the loop a site has a value that isn't allowed there.
    Range {
        loop_no: u32,
        iteration: i64,
        site: u32,
        value: i64,
    },
    /// This step of the script, or statement of the calculator text, counted from 1, is the first that breaks a rule, and this
    /// is the least that it breaks.
    Script {
        step: u32,
        rule: u32,
    },
    /// This step of the script, counted from 1, would run `q` before `p`, though they conflict.
    Illegal {
        step: u32,
        p: Unit,
        q: Unit,
    },
    /// There is more than may be; this is how much was met.
    Limit {
        what: What,
        count: u64,
    },
}

/// The outcome of a text that is no bundle.
pub fn refusal(fault: InputFault) -> Outcome
    ensures refused { result ≡ refused fault }
    ensures of_bytes { IsOfBytes result }
{
    match fault {
        InputFault::Text { place, kind } => Outcome::Text { place, kind },
        InputFault::Kernel { place, rule } => Outcome::Kernel { place, rule },
        InputFault::Input { name, place, rule } => Outcome::Input { name, place, rule },
        InputFault::Memory => Outcome::Memory,
    }
}

/// The outcome of a bundle that has too many units.
pub fn shape_refusal(fault: ShapeFault) -> Outcome
    ensures refused { result ≡ shape_refused fault }
    ensures of_bytes { IsOfBytes result }
{
    match fault {
        ShapeFault::Units { count } => Outcome::Limit {
            what: What::Units,
            count,
        },
        ShapeFault::Memory => Outcome::Memory,
    }
}

/// The outcome of a bundle in which something is refused on the walk.
pub fn walk_refusal(fault: AccessFault) -> Outcome
    ensures refused { result ≡ walk_refused fault }
    ensures of_bytes { IsOfBytes result }
{
    match fault {
        AccessFault::Range {
            loop_no,
            iteration,
            site,
            value,
        } => Outcome::Range {
            loop_no,
            iteration,
            site,
            value,
        },
        AccessFault::Visits { count } => Outcome::Limit {
            what: What::Visits,
            count,
        },
        AccessFault::Memory => Outcome::Memory,
    }
}

/// The outcome of a script that breaks a rule, or has too many parts.
pub fn script_refusal(fault: ScriptFault) -> Outcome
    ensures refused { result ≡ script_refused fault }
    ensures of_bytes { IsOfBytes result }
{
    match fault {
        ScriptFault::Rule { step, rule } => Outcome::Script { step, rule },
        ScriptFault::Tiles { count } => Outcome::Limit {
            what: What::Tiles,
            count,
        },
        ScriptFault::Memory => Outcome::Memory,
    }
}

/// The outcome of a script of which a step is refused.
pub fn plan_refusal(fault: PlanFault) -> Outcome
    ensures refused { result ≡ plan_refused fault }
    ensures of_bytes { IsOfBytes result }
{
    match fault {
        PlanFault::Illegal { step, p, q } => Outcome::Illegal { step, p, q },
        PlanFault::Memory => Outcome::Memory,
    }
}

/// The outcome of a text that has no results.
pub fn calc_refusal(fault: CalcFault) -> Outcome
    ensures refused { result ≡ calc_refused fault }
    ensures of_bytes { IsOfBytes result }
{
    match fault {
        CalcFault::Text { place, kind } => Outcome::Text { place, kind },
        CalcFault::Rule { statement, rule } => Outcome::Script {
            step: statement,
            rule,
        },
        CalcFault::Memory => Outcome::Memory,
    }
}

/// The exit status of an outcome.
pub fn status(outcome: &Outcome) -> u8
    ensures { result ≡ status_of outcome.now }
{
    match outcome {
        Outcome::Done => 0,
        Outcome::Memory => 1,
        Outcome::Usage { .. } => 2,
        Outcome::ReadFault => 3,
        Outcome::WriteFault => 4,
        Outcome::Text { .. } => 5,
        Outcome::Kernel { .. } => 6,
        Outcome::Input { .. } => 7,
        Outcome::Range { .. } => 8,
        Outcome::Script { .. } => 9,
        Outcome::Illegal { .. } => 10,
        Outcome::Limit { .. } => 12,
    }
}
