//! Operations by their names, and texts after a front.

// Names of operations, and the fronts of short texts.

ghost use Rattle.std.specs.Prelude.{◌≡◌, option_map};
ghost use Rattle.route_json.specs.Names.{op_of, rest_after};

use mc_types::Op;

/// The operation of this name, as the classic dialect spells it; `None` where there is none.
pub fn op_of(text: &str) -> Option<Op>
    ensures { result ≡ op_of text.now }
{
    match text {
        "get" => Some(Op::Get),
        "gat" => Some(Op::Gat),
        "set" => Some(Op::Set),
        "add" => Some(Op::Add),
        "replace" => Some(Op::Replace),
        "append" => Some(Op::Append),
        "prepend" => Some(Op::Prepend),
        "cas" => Some(Op::Cas),
        "delete" => Some(Op::Delete),
        "incr" => Some(Op::Incr),
        "decr" => Some(Op::Decr),
        "touch" => Some(Op::Touch),
        _ => None,
    }
}

/// What stands after this front; `None` where the text begins otherwise.
pub fn rest_after<'a>(front: &str, text: &'a str) -> Option<&'a str>
    ensures { option_map (λ s. s.now) result ≡ rest_after front.now text.now }
{
    text.strip_prefix(front)
}
