//! What a name may be used for at a place of the text.

ghost use Rattle.std.specs.Prelude.{◌≡◌};
ghost use Rattle.dp_check.specs.Names.{named};
ghost use Rattle.dp_check.specs.Offence.{offence, Declares, Reads, ReadsElement, Assigns, AssignsElement, Calls};
ghost use Rattle.dp_check.specs.Tokens.{token};
ghost use Rattle.dp_check.specs.Resolved.{scalar_expr, array_of, variable_of, function_of};
ghost use Rattle.dp_check.specs.Answer.{answer};

use crate::CheckFail;
use crate::names::{Meaning, Names};
use dp_base::VarId;
use dp_tree::{Expr, Name};

/// The name may be declared here.
pub fn undeclared(names: &Names<'_>, name: &Name) -> Result<(), CheckFail>
    ensures { result ≡ answer (offence (token names.now Declares name.now)) tt }
{
    match names.meaning(name.text.as_slice()) {
        None => Ok(()),
        Some(_) => Err(CheckFail::Twice { line: name.line }),
    }
}

/// The value of a name without an index.
pub fn scalar(names: &Names<'_>, name: &Name) -> Result<Expr, CheckFail>
    ensures { result ≡ answer (offence (token names.now Reads name.now)) (scalar_expr (named names.now name.now.text)) }
{
    match names.meaning(name.text.as_slice()) {
        Some(Meaning::Scalar(var)) => Ok(Expr::Scalar(var)),
        Some(Meaning::InputLen) => Ok(Expr::InputLen),
        Some(Meaning::Array(_) | Meaning::Input) => Err(CheckFail::NotScalar { line: name.line }),
        Some(Meaning::Function { .. }) | None => Err(CheckFail::Unknown { line: name.line }),
    }
}

/// The array whose element is read; `None` is the input.
pub fn array(names: &Names<'_>, name: &Name) -> Result<Option<VarId>, CheckFail>
    ensures { result ≡ answer (offence (token names.now ReadsElement name.now)) (array_of (named names.now name.now.text)) }
{
    match names.meaning(name.text.as_slice()) {
        Some(Meaning::Array(var)) => Ok(Some(var)),
        Some(Meaning::Input) => Ok(None),
        Some(Meaning::Scalar(_) | Meaning::InputLen) => Err(CheckFail::NotArray {
            line: name.line,
        }),
        Some(Meaning::Function { .. }) | None => Err(CheckFail::Unknown { line: name.line }),
    }
}

/// The scalar that is assigned.
pub fn assigned(names: &Names<'_>, name: &Name) -> Result<VarId, CheckFail>
    ensures { result ≡ answer (offence (token names.now Assigns name.now)) (variable_of (named names.now name.now.text)) }
{
    match names.meaning(name.text.as_slice()) {
        Some(Meaning::Scalar(var)) => Ok(var),
        Some(Meaning::Array(_) | Meaning::Input) => Err(CheckFail::NotScalar { line: name.line }),
        Some(Meaning::InputLen) => Err(CheckFail::ReadOnly { line: name.line }),
        Some(Meaning::Function { .. }) | None => Err(CheckFail::Unknown { line: name.line }),
    }
}

/// The array whose element is assigned.
pub fn assigned_element(names: &Names<'_>, name: &Name) -> Result<VarId, CheckFail>
    ensures { result ≡ answer (offence (token names.now AssignsElement name.now)) (variable_of (named names.now name.now.text)) }
{
    match names.meaning(name.text.as_slice()) {
        Some(Meaning::Array(var)) => Ok(var),
        Some(Meaning::Scalar(_) | Meaning::InputLen) => Err(CheckFail::NotArray {
            line: name.line,
        }),
        Some(Meaning::Input) => Err(CheckFail::ReadOnly { line: name.line }),
        Some(Meaning::Function { .. }) | None => Err(CheckFail::Unknown { line: name.line }),
    }
}

/// The number of the function that is called with so many arguments.
pub fn called(names: &Names<'_>, name: &Name, count: usize) -> Result<u32, CheckFail>
    ensures { result ≡ answer (offence (token names.now (Calls count) name.now)) (function_of (named names.now name.now.text)) }
{
    match names.meaning(name.text.as_slice()) {
        Some(Meaning::Function { number, params }) => {
            if params == count {
                Ok(number)
            } else {
                Err(CheckFail::Arguments { line: name.line })
            }
        }
        _ => Err(CheckFail::Unknown { line: name.line }),
    }
}
