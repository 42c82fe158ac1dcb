//! The columns of a relation file.

ghost use Rattle.rota_words.specs.Orders.{told_words};
ghost use Rattle.rota_report.specs.Reading.{ReadsColumn, ReadsColumns};

use crate::columns::named_column;
use crate::failure::Failure;
use conversation_runs::Source;
use pg_interval::Interval;
use pg_messages::PgList;
use relation_files::read_relations;
use rota_words::RotaWords;
use std::alloc::Global;

/// The intervals of the column that a rota names.
pub(crate) fn read_column<F: Source>(
    alloc: Global,
    file: &mut F,
    rota: RotaWords<'_>,
) -> Result<PgList<Interval>, Failure>
    ensures { ReadsColumn (told_words rota.entry) result (F.left file.old) (F.left file.new)
        (F.faults file.old) (F.faults file.new) }
{
    let relations = read_relations(alloc, file)?;
    named_column(alloc, &relations, rota.relation, rota.column)
}

/// The intervals of the columns that two rotas name.
pub(crate) fn read_columns<F: Source>(
    alloc: Global,
    file: &mut F,
    first: RotaWords<'_>,
    second: RotaWords<'_>,
) -> Result<(PgList<Interval>, PgList<Interval>), Failure>
    ensures { ReadsColumns (told_words first.entry) (told_words second.entry) result
        (F.left file.old) (F.left file.new) (F.faults file.old) (F.faults file.new) }
{
    let relations = read_relations(alloc, file)?;
    let steps = named_column(alloc, &relations, first.relation, first.column)?;
    let others = named_column(alloc, &relations, second.relation, second.column)?;
    Ok((steps, others))
}
