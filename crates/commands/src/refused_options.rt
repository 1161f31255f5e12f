//! The lines of refused options.
ghost use Rattle.std.specs.Prelude.{◌≡◌, IfOk, string_bytes};
ghost use Rattle.commands.specs.OptionRefusals.{option_line, option_refusal_name};

use command_line::OptionRefusal;
use inputs::PrintedRefusal;
use program::ShapeError;
use refusals::{K1, K2, K3, K4, K5, K6, K7, K8, K9, K10, K12, K13, K14, K15, K16, line_of_name};
use std::alloc::{AllocError, Global};

/// The name of the refusal of options.
fn option_refusal_name(refusal: OptionRefusal) -> &'static str
    ensures { result.now ≡ option_refusal_name refusal }
{
    match refusal {
        OptionRefusal::Shape(ShapeError::K1) => K1.name,
        OptionRefusal::Shape(ShapeError::K2) => K2.name,
        OptionRefusal::Shape(ShapeError::K3) => K3.name,
        OptionRefusal::Shape(ShapeError::K4) => K4.name,
        OptionRefusal::Shape(ShapeError::K5) => K5.name,
        OptionRefusal::Shape(ShapeError::K6) => K6.name,
        OptionRefusal::Shape(ShapeError::K7) => K7.name,
        OptionRefusal::Workers => K8.name,
        OptionRefusal::Fault => K9.name,
        OptionRefusal::Show => K10.name,
        OptionRefusal::States => K12.name,
        OptionRefusal::Runs => K13.name,
        OptionRefusal::Cycles => K14.name,
        OptionRefusal::Shard => K15.name,
        OptionRefusal::Lines => K16.name,
    }
}

/// What is printed for refused options.
pub(crate) fn option_refusal(
    alloc: Global,
    refusal: OptionRefusal,
) -> Result<PrintedRefusal, AllocError>
    ensures { IfOk result (λ printed. string_bytes printed.line ≡ option_line refusal) }
{
    let line = line_of_name(alloc, option_refusal_name(refusal))?;
    Ok(PrintedRefusal { line, quote: None })
}
