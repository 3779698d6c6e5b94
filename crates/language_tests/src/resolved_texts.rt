//! Resolved statements as texts.

use f77_check::{Action, Condition, Element, Jump, Number, Resolved};
use std::test::Fail;

/// Adds the slot of a variable, or the first slot, the bounds and the subscripts of an array element.
#[cycle(shown)]
fn show_element(text: &mut String, element: &Element) -> Result<(), Fail> {
    match element {
        Element::Variable(slot) => return Ok(write!(text, "@{slot}")?),
        Element::Vector {
            first,
            bound,
            subscript,
        } => {
            write!(text, "@{first}:{bound}[")?;
            show_number(text, subscript)?;
        }
        Element::Matrix {
            first,
            rows,
            columns,
            row,
            column,
        } => {
            write!(text, "@{first}:{rows}x{columns}[")?;
            show_number(text, row)?;
            text.push(',')?;
            show_number(text, column)?;
        }
    }
    Ok(text.push(']')?)
}

#[cycle(shown)]
fn show_of(text: &mut String, word: &str, number: &Number) -> Result<(), Fail> {
    text.push_str(word)?;
    show_number(text, number)?;
    Ok(text.push(')')?)
}

#[cycle(shown)]
fn show_number(text: &mut String, number: &Number) -> Result<(), Fail> {
    match number {
        Number::Constant(value) => Ok(write!(text, "{value}")?),
        Number::TooLarge => Ok(text.push_str("TooLarge")?),
        Number::Element(element) => show_element(text, element),
        Number::Negated(inner) => show_of(text, "Negated(", inner),
        Number::Absolute(inner) => show_of(text, "Absolute(", inner),
        Number::ZeroPush(inner) => show_of(text, "ZeroPush(", inner),
        Number::Binary(operation, left, right) => {
            write!(text, "{operation:?}(")?;
            show_number(text, left)?;
            text.push(',')?;
            show_number(text, right)?;
            Ok(text.push(')')?)
        }
    }
}

fn show_condition(text: &mut String, condition: &Condition) -> Result<(), Fail> {
    match condition {
        Condition::Constant(value) => return Ok(write!(text, "{value}")?),
        Condition::Element(element) => return show_element(text, element),
        Condition::Not(inner) => {
            text.push_str("Not(")?;
            show_condition(text, inner)?;
        }
        Condition::Related(relation, left, right) => {
            write!(text, "{relation:?}(")?;
            show_number(text, left)?;
            text.push(',')?;
            show_number(text, right)?;
        }
        Condition::Connected(connective, left, right) => {
            write!(text, "{connective:?}(")?;
            show_condition(text, left)?;
            text.push(',')?;
            show_condition(text, right)?;
        }
    }
    Ok(text.push(')')?)
}

fn show_jump(text: &mut String, jump: &Jump) -> Result<(), Fail> {
    write!(text, " {}", jump.target)?;
    for left in &jump.leaves {
        write!(text, " leaves {left}")?;
    }
    Ok(())
}

fn show_computed_goto(text: &mut String, value: &Number, jumps: &[Jump]) -> Result<(), Fail> {
    text.push_str("Goto by ")?;
    show_number(text, value)?;
    for jump in jumps {
        show_jump(text, jump)?;
    }
    Ok(())
}

fn show_arithmetic_if(text: &mut String, value: &Number, jumps: [&Jump; 3]) -> Result<(), Fail> {
    text.push_str("If ")?;
    show_number(text, value)?;
    for jump in jumps.as_slice() {
        show_jump(text, jump)?;
    }
    Ok(())
}

fn show_choice(text: &mut String, word: &str, condition: &Condition) -> Result<(), Fail> {
    text.push_str(word)?;
    show_condition(text, condition)?;
    Ok(text.push(' ')?)
}

/// Adds the target of an assignment.
fn show_target(text: &mut String, target: &Element) -> Result<(), Fail> {
    show_element(text, target)?;
    Ok(text.push('=')?)
}

fn show_parameters(text: &mut String, numbers: [&Number; 3]) -> Result<(), Fail> {
    for number in numbers.as_slice() {
        text.push(' ')?;
        show_number(text, number)?;
    }
    Ok(())
}

fn show_action(text: &mut String, action: &Action) -> Result<(), Fail> {
    match action {
        Action::Declaration => Ok(text.push_str("Declaration")?),
        Action::AssignNumber(target, value) => {
            show_target(text, target)?;
            show_number(text, value)
        }
        Action::AssignTruth(target, value) => {
            show_target(text, target)?;
            show_condition(text, value)
        }
        Action::Goto(jump) => {
            text.push_str("Goto")?;
            show_jump(text, jump)
        }
        Action::ComputedGoto { value, jumps } => show_computed_goto(text, value, jumps),
        Action::ArithmeticIf {
            value,
            negative,
            zero,
            positive,
        } => show_arithmetic_if(text, value, [negative, zero, positive]),
        Action::LogicalIf { condition, action } => {
            show_choice(text, "If ", condition)?;
            show_action(text, action)
        }
        Action::Branch {
            condition,
            otherwise,
        } => {
            show_choice(text, "Branch ", condition)?;
            Ok(write!(text, "{otherwise}")?)
        }
        Action::Continue => Ok(text.push_str("Continue")?),
        Action::Loop {
            variable,
            first,
            last,
            step,
            terminal,
        } => {
            write!(text, "Loop {terminal} @{variable}=")?;
            show_parameters(text, [first, last, step])
        }
        Action::Return => Ok(text.push_str("Return")?),
        Action::Stop => Ok(text.push_str("Stop")?),
        Action::Trap => Ok(text.push_str("Trap")?),
    }
}

/// A resolved statement as a text: its action, the DOs that end there, and the next statement.
pub(crate) fn shown(rt: &impl AllocGlobal, resolved: &Resolved) -> Result<String, Fail> {
    let mut text = String::new(rt.alloc());
    show_action(&mut text, &resolved.action)?;
    for end in &resolved.ends {
        write!(text, " ends {end}")?;
    }
    write!(text, " next {}", resolved.next)?;
    Ok(text)
}
