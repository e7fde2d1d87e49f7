//! `cost_rule`.
use cost_rule::{ConstraintFault, holds, read_constraint};
use std::alloc::{AllocError, Global};
use std::test::Fail;

/// Texts of constraints, each with its index, its relation and its bound in millionths, or how far it goes along with a
/// constraint.
const TEXTS: &str = "\
gt 0 => None Gt 0
[1] gt 1.5 => Some(1) Gt 1500000
[12]  le 9999999999999999.999999 => Some(12) Le 9999999999999999999999
eq 5.000000 => None Eq 5000000
lt 0.000001 => None Lt 1
le 1234567890123456 => None Le 1234567890123456000000
[07]\t ge\t\t002.25 => Some(7) Ge 2250000
 => 0
GT 1 => 0
 gt 0 => 0
g => 1
gq 1 => 1
eq => 2
gt0 => 2
lt .5 => 3
lt -1 => 3
gt 0  => 4
ge 1. => 5
ge 1.. => 5
lt 1.1234567 => 11
le 12345678901234567 => 19
[ 0] le 1 => 1
[] le 1 => 1
[0]le 1 => 3
[100] le 1 => 3
[1] [1] le 1 => 4";

/// What a text is read as, or how far it goes along with a constraint.
fn outcome(alloc: Global, text: &str) -> Result<String, AllocError> {
    match read_constraint(text.as_bytes()) {
        Ok(read) => {
            format!(in alloc; "{:?} {:?} {}", read.index, read.relation, read.millionths)
        }
        Err(ConstraintFault::BadAt(place)) => format!(in alloc; "{place}"),
    }
}

#[test]
fn constraints_are_read_as_they_are_written(rt: HostRuntime) -> Result<(), Fail> {
    for line in TEXTS.lines() {
        let (text, expected) = line.split_once(" => ").unwrap_or((line, ""));
        assert_eq!(rt; outcome(rt.alloc(), text)?.as_str(), expected, "{text}");
    }
    Ok(())
}

/// Constraints, each with a cost and whether it holds of it. A float of 64 bits has no 9007199254740993: it rounds to
/// the even number below.
const COSTS: &str = "\
gt 1.5 => 1 false
gt 1.5 => 2 true
gt 2 => 2 false
ge 2 => 2 true
ge 2.000001 => 2 false
lt 0.000001 => 0 true
lt 2 => 2 false
le 2 => 2 true
le 1.999999 => 2 false
eq 9007199254740993 => 9007199254740993 true
eq 9007199254740993 => 9007199254740992 false
gt 9007199254740992 => 9007199254740993 true
gt 9999999999999999.999999 => 18446744073709551615 true";

/// Whether the constraint that a text is holds of a cost, as it is printed.
fn tested(alloc: Global, text: &str, cost: u64) -> Result<String, AllocError> {
    match read_constraint(text.as_bytes()) {
        Ok(constraint) => format!(in alloc; "{cost} {}", holds(&constraint, cost)),
        Err(fault) => format!(in alloc; "{fault:?}"),
    }
}

#[test]
fn costs_are_tested_exactly(rt: HostRuntime) -> Result<(), Fail> {
    for line in COSTS.lines() {
        let (text, expected) = line.split_once(" => ").unwrap_or((line, ""));
        let (cost, _) = expected.split_once(' ').unwrap_or((expected, ""));
        let cost = cost.parse::<u64>()?;
        assert_eq!(rt;
            tested(rt.alloc(), text, cost)?.as_str(),
            expected,
            "{text}"
        );
    }
    Ok(())
}
