//! The columns of relations, made once and shared by the queries of them.

ghost use Rattle.std.specs.Prelude.{◌≡◌, IfOk, map};
ghost use Rattle.std.specs.Arc.{arc_value};
ghost use Rattle.relation_handlers.specs.Shared.{shared_columns, told_columns};

use crate::columns::{column_formats, columns};
use pg_messages::{PgList, PgStr};
use pg_portal::{FieldInfo, Format};
use pg_text::FieldFormat;
use relation_tables::Relation;
use std::alloc::{AllocError, Global};
use std::marker::Model;
use std::sync::Arc;

/// Columns, and the format of each.
#[derive(Drop)]
pub(crate) struct Columns {
    fields: Arc<PgList<FieldInfo>>,
    formats: Arc<PgList<FieldFormat>>,
}

impl Model for Columns {
    ghost use Rattle.std.specs.Arc.{arc_value};
    ghost use Rattle.relation_handlers.specs.Told.{ToldColumns};

    ghost Value = { ToldColumns };

    ghost view = { λ c. record { fields = arc_value c.fields; formats = arc_value c.formats } };
}

impl Columns {
    /// The columns of these names in these formats.
    pub(crate) fn new(
        alloc: Global,
        formats: &Format,
        names: &[PgStr],
    ) -> Result<Columns, AllocError>
        ensures { IfOk result (λ made. made ≡ told_columns formats.now names.now) }
    {
        let formats = column_formats(alloc, formats, names)?;
        let fields = columns(alloc, formats.as_slice(), names)?;
        Ok(Columns {
            fields: Arc::new(alloc, fields)?,
            formats: Arc::new(alloc, formats)?,
        })
    }

    /// The same columns. It takes no memory.
    #[inline(always)]
    pub(crate) fn share(&self) -> Result<Columns, AllocError>
        ensures { IfOk result (λ same. same ≡ self.now) }
    {
        Ok(Columns {
            fields: self.fields.clone()?,
            formats: self.formats.clone()?,
        })
    }

    /// The formats of the columns, shared. It takes no memory.
    pub(crate) fn share_formats(&self) -> Result<Arc<PgList<FieldFormat>>, AllocError>
        ensures { IfOk result (λ same. arc_value same ≡ self.now.formats) }
    {
        Ok(self.formats.clone()?)
    }

    /// The columns.
    pub(crate) fn fields(&self) -> &[FieldInfo]
        ensures { result.now ≡ self.now.fields }
    {
        self.fields.as_slice()
    }

    /// The columns and their formats, apart.
    pub(crate) fn into_parts(self) -> (Arc<PgList<FieldInfo>>, Arc<PgList<FieldFormat>>)
        ensures fields { arc_value result.0 ≡ self.fields }
        ensures formats { arc_value result.1 ≡ self.formats }
    {
        let Columns { fields, formats } = self;
        (fields, formats)
    }
}

/// The columns of a relation where all are text, and where all are binary.
#[derive(Drop)]
pub(crate) struct SharedColumns {
    pub(crate) text: Columns,
    pub(crate) binary: Columns,
}

/// The columns of each relation.
pub(crate) fn shared_columns(
    alloc: Global,
    relations: &[Relation],
) -> Result<PgList<SharedColumns>, AllocError>
    ensures { IfOk result (λ all. all ≡ map shared_columns relations.now) }
{
    let mut all = PgList::new(alloc);
    for relation in relations {
        let names = relation.columns.as_slice();
        all.push(SharedColumns {
            text: Columns::new(alloc, &Format::UnifiedText, names)?,
            binary: Columns::new(alloc, &Format::UnifiedBinary, names)?,
        })?;
    }
    Ok(all)
}
