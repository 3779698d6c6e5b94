//! The nodes of statements, in the order of their positions.

use f77_syntax::{Constant, Expr, Name, Node, Stmt, Value, print_stmt};
use f77_tree::nodes;
use samples::{enclosed, enclosing, expect, parts};
use std::test::Fail;

/// Adds a constant, or the name of an operator, a sign or a function. For a reference it adds nothing.
fn show_expression(text: &mut String, expr: &Expr) -> Result<(), Fail> {
    match expr {
        Expr::Number(number) => write!(text, "{number}")?,
        Expr::Truth(value) => write!(text, "{value}")?,
        Expr::Reference(_) => (),
        Expr::Call(function, _) => text.push_str(function.name())?,
        Expr::Signed(sign, _) => text.push(char::from(sign.symbol()))?,
        Expr::Not(_) => text.push_str(".NOT.")?,
        Expr::Binary(operator, _, _) => text.push_str(operator.symbol())?,
        Expr::ZeroPush(_) => text.push_str("ZPUSH")?,
    }
    Ok(())
}

fn show_value(text: &mut String, value: &Value) -> Result<(), Fail> {
    let times = value.times;
    match value.constant {
        Constant::Number(number) => Ok(write!(text, "{times}*{number}")?),
        Constant::Truth(truth) => Ok(write!(text, "{times}*{truth}")?),
    }
}

fn show_statement(rt: &impl AllocGlobal, text: &mut String, stmt: &Stmt) -> Result<(), Fail> {
    let shown = print_stmt(rt.alloc(), stmt)?;
    Ok(text.push_str(shown.as_str())?)
}

/// Adds what a node is.
fn show_kind(rt: &impl AllocGlobal, text: &mut String, node: Node<'_>) -> Result<(), Fail> {
    match node {
        Node::Statement(stmt) => show_statement(rt, text, stmt),
        Node::Target(_) => Ok(text.push_str("target ")?),
        Node::Expression(expr) => show_expression(text, expr),
        Node::Name(_) | Node::Declared(_) => Ok(()),
        Node::Label(_) => Ok(text.push_str("label ")?),
        Node::Value(value) => show_value(text, value),
    }
}

/// Adds the name or the label of a node, if it has one.
fn show_borne(text: &mut String, node: Node<'_>) -> Result<(), Fail> {
    text.push_str(node.name().map_or("", Name::as_str))?;
    match node.label() {
        Some(label) => Ok(write!(text, "{label}")?),
        None => Ok(()),
    }
}

/// Adds the number of subscripts of a reference.
fn show_subscripts(text: &mut String, node: Node<'_>) -> Result<(), Fail> {
    match node {
        Node::Expression(Expr::Reference(place)) => {
            let count = place.subscripts.len();
            Ok(write!(text, "({count})")?)
        }
        _ => Ok(()),
    }
}

fn show_node(rt: &impl AllocGlobal, text: &mut String, node: Node<'_>) -> Result<(), Fail> {
    show_kind(rt, text, node)?;
    show_borne(text, node)?;
    show_subscripts(text, node)?;
    Ok(text.push(';')?)
}

fn show_nodes(rt: &impl AllocGlobal, text: &mut String, nodes: &[Node<'_>]) -> Result<(), Fail> {
    for node in nodes {
        show_node(rt, text, *node)?;
    }
    Ok(())
}

/// The nodes of a statement, from node 0 on, as a text.
fn node_texts(rt: &impl AllocGlobal, stmt: &Stmt) -> Result<String, Fail> {
    let nodes = nodes(rt.alloc(), stmt)?;
    let mut text = String::new(rt.alloc());
    show_nodes(rt, &mut text, &nodes)?;
    Ok(text)
}

/// The nodes of the statement that this text spells.
fn nodes_of(rt: &impl AllocGlobal, text: &str) -> Result<String, Fail> {
    let enclosing = enclosing(rt, text)?;
    node_texts(rt, enclosed(&enclosing, text)?)
}

fn assert_row(rt: &impl AllocGlobal, row: &str) -> Result<(), Fail> {
    let (text, expected) = parts(row)?;
    expect(nodes_of(rt, text), expected, row)
}

#[test]
fn numbers_the_nodes(rt: HostRuntime) -> Result<(), Fail> {
    for row in NUMBERED.trim_matches('\n').lines() {
        assert_row(&rt, row)?;
    }
    Ok(())
}

const NUMBERED: &str = "
IF(P)K=M(I,J)+1 => IF (P) K=M(I,J)+1;P(0);K=M(I,J)+1;target K;+;M(2);I(0);J(0);1;
DO10I=1,N => DO 10 I=1,N;label 10;I;1;N(0);
DATAI,J/1,2/ => DATA I,J/1,2/;I;J;1*1;1*2;
DATAI/3*0/,P/.TRUE./ => DATA I/3*0/,P/.TRUE./;I;3*0;P;1*true;
INTEGERM(2,3),N => INTEGER M(2,3),N;M;N;
GOTO30 => GO TO 30;label 30;
GOTO(10,20,10)M(I) => GO TO (10,20,10),M(I);label 10;label 20;label 10;M(1);I(0);
IF(-I)10,20,30 => IF (-I) 10,20,30;-;I(0);label 10;label 20;label 30;
M(I,J+1)=IABS(K) => M(I,J+1)=IABS(K);target M;I(0);+;J(0);1;IABS;K(0);
DO10I=1,N,-K => DO 10 I=1,N,-K;label 10;I;1;N(0);-;K(0);
CONTINUE => CONTINUE;
SUBROUTINE A(I,B1) => SUBROUTINE A(I,B1);I;B1;
LOGICALP(3),Q => LOGICAL P(3),Q;P;Q;
IF(I)10,20,30 => IF (I) 10,20,30;I(0);label 10;label 20;label 30;
GOTO(10,20)M(I) => GO TO (10,20),M(I);label 10;label 20;M(1);I(0);
";
