//! The resolved statements of programs.

use crate::resolved_texts::shown;
use f77_check::Resolved;
use f77_syntax::Shared;
use samples::{checked, expect};
use std::process::Abort;
use std::test::Fail;

/// Compares resolved statements.
fn assert_statements(
    rt: &impl AllocGlobal,
    statements: &[Shared<Resolved>],
    expected: &str,
) -> Result<(), Fail> {
    for (resolved, line) in statements.iter().zip(expected.trim_matches('\n').lines()) {
        expect(shown(rt, resolved), line, line)?;
    }
    Ok(())
}

/// Compares the number of slots and each resolved statement.
fn assert_resolved(
    rt: &(impl AllocGlobal + Abort),
    statements: &str,
    slots: usize,
    expected: &str,
) -> Result<(), Fail> {
    let checked = checked(rt, statements)?;
    let count = expected.trim_matches('\n').lines().count();
    assert_eq!(rt; checked.slots(), slots);
    assert_eq!(rt; checked.statements().len(), count);
    assert_statements(rt, checked.statements(), expected)
}

#[test]
fn looks_up_names_labels_and_loops(rt: HostRuntime) -> Result<(), Fail> {
    assert_resolved(
        &rt,
        "SUBROUTINE S(K,M,P); INTEGER M(3,4),V(5); LOGICAL P; DO 10 I=1,K; DO 10 J=1,-K,2; \
        IF (P) GO TO 20; 10 M(I,J)=MAX0(V(2),-K,+3)*MOD(I,J)-IABS(J); 20 IF (K-I) 20,30,20; \
        30 P=.NOT.P.AND.K.GE.0.OR..FALSE..NEQV.P; END",
        21,
        NAMES,
    )
}

const NAMES: &str = "
Declaration next 1
Declaration next 2
Declaration next 3
Loop 6 @19= 1 @0 1 next 4
Loop 6 @20= 1 Negated(@0) 2 next 5
If @13 Goto 7 leaves 3 leaves 4 next 6
@1:3x4[@19,@20]=Subtract(Multiply(Greatest(@14:5[2],Greatest(Negated(@0),3)),Modulus(@19,@20)),Absolute(@20)) ends 4 ends 3 next 7
If Subtract(@0,@19) 7 8 7 next 8
@13=NotEquivalent(Or(And(Not(@13),GreaterOrEqual(@0,0)),false),@13) next 9
Return next 10
";

#[test]
fn looks_up_the_labels_of_a_computed_go_to(rt: HostRuntime) -> Result<(), Fail> {
    assert_resolved(
        &rt,
        "SUBROUTINE S(K); DO 10 J=1,3; 10 GO TO (10,20,10),-K; 20 K=J; END",
        2,
        COMPUTED,
    )
}

const COMPUTED: &str = "
Declaration next 1
Loop 2 @1= 1 3 1 next 2
Goto by Negated(@0) 2 3 leaves 1 2 ends 1 next 3
@0=@1 next 4
Return next 5
";

#[test]
fn looks_up_where_branches_lead(rt: HostRuntime) -> Result<(), Fail> {
    assert_resolved(
        &rt,
        "SUBROUTINE S(K); IF (K.EQ.1) THEN; IF (K.GT.0) THEN; K=2; ELSE; CONTINUE; END IF; \
        ELSE IF (K.LT.3) THEN; RETURN; ELSE; STOP; END IF; END",
        1,
        BRANCHES,
    )
}

const BRANCHES: &str = "
Declaration next 1
Branch Equal(@0,1) 7 next 2
Branch Greater(@0,0) 4 next 3
@0=2 next 6
Continue next 5
Continue next 6
Continue next 11
Branch Less(@0,3) 9 next 8
Return next 11
Continue next 10
Stop next 11
Continue next 12
Return next 13
";
