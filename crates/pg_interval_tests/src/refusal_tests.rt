// Equality of refusals.

use crate::compared::Compared;
use pg_interval::{DecimalError, IntError, ParseError, Reason};
use std::test::Fail;

impl Compared for ParseError {
    fn is_equal(&self, other: &ParseError) -> bool {
        self == other
    }
}

impl Compared for Reason {
    fn is_equal(&self, other: &Reason) -> bool {
        self == other
    }
}

impl Compared for IntError {
    fn is_equal(&self, other: &IntError) -> bool {
        self == other
    }
}

impl Compared for DecimalError {
    fn is_equal(&self, other: &DecimalError) -> bool {
        self == other
    }
}

#[test]
fn refusals_compare(rt: HostRuntime) -> Result<(), Fail> {
    let shape = ParseError::from_invalid_interval(Reason::Shape);
    let empty = ParseError::from(IntError::Empty);
    assert!(rt; shape.is_equal(&shape));
    assert!(rt; !shape.is_equal(&empty));
    assert!(rt; Reason::Shape.is_equal(&Reason::Shape));
    assert!(rt; IntError::Empty.is_equal(&IntError::Empty));
    assert!(rt; DecimalError::Empty.is_equal(&DecimalError::Empty));
    Ok(())
}
