//! An expression in prefix notation: each word behind a space.
ghost use Rattle.std.specs.Prelude.{◌≡◌, ◌++◌, OnOk};
ghost use Rattle.dp_tree_text.specs.ExprText.{binary_name, expr_text, number_text, unary_name};

use dp_base::{BinOp, NoMemory, Row, UnOp};
use dp_text::put_labelled;
use dp_tree::Expr;
use itoa::Buffer;

/// Appends the words of the expression.
#[tactic(auto, using(crate::proofs::ExprForms::expr_forms))]
#[cycle(expr)]
pub fn put_expr(out: &mut Row<u8>, e: &Expr) -> Result<(), NoMemory>
    ensures { OnOk result (out.new ≡ out.old ++ expr_text e.now) }
{
    match e {
        Expr::Number(n) => put_number(out, *n),
        Expr::Input(index) => put_operand(out, b" input", index.get()),
        Expr::InputLen => out.extend_from_slice(b" input_len"),
        Expr::Scalar(var) => put_labelled(out, b" scalar ", u64::from(var.0)),
        Expr::Element(var, index) => {
            put_labelled(out, b" element ", u64::from(var.0))?;
            put_expr(out, index.get())?;
            Ok(())
        }
        Expr::Unary(op, a) => put_operand(out, unary_name(*op), a.get()),
        Expr::Binary(op, a, b) => {
            put_operand(out, binary_name(*op), a.get())?;
            put_expr(out, b.get())?;
            Ok(())
        }
        Expr::And(a, b) => {
            put_operand(out, b" &&", a.get())?;
            put_expr(out, b.get())?;
            Ok(())
        }
        Expr::Or(a, b) => {
            put_operand(out, b" ||", a.get())?;
            put_expr(out, b.get())?;
            Ok(())
        }
    }
}

/// Appends an operator and the words of its first operand.
#[tactic(auto, using(crate::proofs::ExprForms::expr_forms))]
#[cycle(expr)]
fn put_operand(out: &mut Row<u8>, name: &[u8], e: &Expr) -> Result<(), NoMemory>
    ensures { OnOk result (out.new ≡ out.old ++ (name.now ++ expr_text e.now)) }
{
    out.extend_from_slice(name)?;
    put_expr(out, e)?;
    Ok(())
}

#[tactic(auto, unfolding(crate::specs::ExprText::number_text))]
fn put_number(out: &mut Row<u8>, n: i64) -> Result<(), NoMemory>
    ensures { OnOk result (out.new ≡ out.old ++ number_text n) }
{
    let mut digits = Buffer::new();
    out.extend_from_slice(b" number ")?;
    out.extend_from_slice(digits.format(n).as_bytes())
}

fn unary_name(op: UnOp) -> &'static [u8]
    ensures { result.now ≡ unary_name op }
{
    match op {
        UnOp::Neg => b" negate",
        UnOp::Not => b" !",
    }
}

fn binary_name(op: BinOp) -> &'static [u8]
    ensures { result.now ≡ binary_name op }
{
    match op {
        BinOp::Mul => b" *",
        BinOp::Div => b" /",
        BinOp::Rem => b" %",
        BinOp::Add => b" +",
        BinOp::Sub => b" -",
        BinOp::Lt => b" <",
        BinOp::Le => b" <=",
        BinOp::Gt => b" >",
        BinOp::Ge => b" >=",
        BinOp::Eq => b" ==",
        BinOp::Ne => b" !=",
    }
}
