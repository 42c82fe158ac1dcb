//! Descriptions of statements and portals.

ghost use Rattle.std.specs.Prelude.{◌≡◌, List, Option, IsTrue, ◌↔◌, [], Some, None};
ghost use Rattle.std.specs.Option.{option_copied};
ghost use Rattle.pg_results.specs.Describing.{Described, no_data, is_no_data};

use crate::field_info::FieldInfo;
use pg_messages::PgList;
use pg_types::PgType;
use std::alloc::Global;

/// A description of a statement or a portal.
pub trait DescribeResponse: Sized {
    ghost use Rattle.std.specs.Prelude.{Bool};
    ghost use Rattle.pg_results.specs.Describing.{Described};

    // its parameters and columns
    ghost told: { Self → Described };

    // whether it is a statement, which has parameters
    ghost has_parameters: { Bool };

    /// The types of a statement's parameters; None for a portal.
    fn parameters(&self) -> Option<&[PgType]>
        ensures { option_copied result ≡ (told self.now).parameters };

    /// The columns of its rows.
    fn fields(&self) -> &[FieldInfo]
        ensures { result.now ≡ (told self.now).fields };

    /// Neither parameters nor columns. It takes no memory.
    fn no_data(alloc: Global) -> Self
        ensures { told result ≡ no_data has_parameters };

    /// Whether there are no columns, and for a statement no parameters either.
    fn is_no_data(&self) -> bool
        ensures { result ≡ is_no_data (told self.now) };
}

/// The parameters and columns of a statement.
#[derive(Drop)]
pub struct DescribeStatementResponse {
    /// The types of its parameters.
    pub parameters: PgList<PgType>,
    /// The columns of its rows.
    pub fields: PgList<FieldInfo>,
}

impl DescribeStatementResponse {
    /// These parameters and columns. It takes no memory.
    pub fn new(parameters: PgList<PgType>, fields: PgList<FieldInfo>) -> DescribeStatementResponse
        ensures { result ≡ record { parameters = parameters; fields = fields } }
    {
        DescribeStatementResponse { parameters, fields }
    }
}

impl DescribeResponse for DescribeStatementResponse {
    ghost use Rattle.std.specs.Prelude.{Some, true};

    ghost told = { λ d. record { parameters = Some d.parameters; fields = d.fields } };

    ghost has_parameters = { true };

    fn parameters(&self) -> Option<&[PgType]> {
        Some(self.parameters.as_slice())
    }

    fn fields(&self) -> &[FieldInfo] {
        self.fields.as_slice()
    }

    fn no_data(alloc: Global) -> DescribeStatementResponse {
        DescribeStatementResponse {
            parameters: PgList::new(alloc),
            fields: PgList::new(alloc),
        }
    }

    fn is_no_data(&self) -> bool {
        self.parameters.is_empty() && self.fields.is_empty()
    }
}

/// The columns of a portal.
#[derive(Drop)]
pub struct DescribePortalResponse {
    /// The columns of its rows.
    pub fields: PgList<FieldInfo>,
}

impl DescribePortalResponse {
    /// These columns. It takes no memory.
    pub fn new(fields: PgList<FieldInfo>) -> DescribePortalResponse
        ensures { result ≡ record { fields = fields } }
    {
        DescribePortalResponse { fields }
    }
}

impl DescribeResponse for DescribePortalResponse {
    ghost use Rattle.std.specs.Prelude.{None, false};

    ghost told = { λ d. record { parameters = None; fields = d.fields } };

    ghost has_parameters = { false };

    fn parameters(&self) -> Option<&[PgType]> {
        None
    }

    fn fields(&self) -> &[FieldInfo] {
        self.fields.as_slice()
    }

    fn no_data(alloc: Global) -> DescribePortalResponse {
        DescribePortalResponse {
            fields: PgList::new(alloc),
        }
    }

    fn is_no_data(&self) -> bool {
        self.fields.is_empty()
    }
}
