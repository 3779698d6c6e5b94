//! The codes of the operators.

use mothra_codes::Op;
use std::process::Abort;

// The codes in their order, as King and Offutt (1991) list them.
const CODES: &str =
    "AAR ABS ACR AOR ASR CAR CNR CRP CSR DER DSA GLR LCR ROR RSR SAN SAR SCR SDL SRC SVR UOI";

/// The operator at this place, from 0, has this code.
fn assert_code(rt: &impl Abort, index: usize, code: &str) {
    let Some(op) = Op::of(code) else {
        panic!(rt; "{code}")
    };
    assert!(rt; op.code() == code && op.index() == index, "{code}");
    assert!(rt; Op::ALL.get(index) == Some(&op), "{code}");
}

#[test]
fn codes_stand_in_order(rt: HostRuntime) {
    for (index, code) in CODES.split(' ').enumerate() {
        assert_code(&rt, index, code);
    }
    assert_eq!(rt; CODES.split(' ').count(), 22);
}

#[test]
fn other_texts_are_no_codes(rt: HostRuntime) {
    for text in ["", " AAR", "AAR ", "AAR,ABS"] {
        assert!(rt; Op::of(text).is_none(), "{text}");
    }
}
