//! What the texts of queries mean among relations.

ghost use Rattle.std.specs.Prelude.{◌≡◌, IsTrue, IfSome};
ghost use Rattle.relation_tables.specs.RelationHandler.{is_statement_of};
ghost use Rattle.relation_tables.specs.Relations.{meaning_of};

use crate::named_relations::NamedRelations;
use relation_tables::RelationStatement;

/// What a trimmed text means: BEGIN and COMMIT in any ASCII case, or a relation by its exact name.
pub(crate) fn find_trimmed_statement(
    relations: &NamedRelations,
    text: &str,
) -> Option<RelationStatement>
    ensures meaning { result ≡ meaning_of relations.now text.now }
    ensures given { IfSome result (λ s. IsTrue (is_statement_of relations.now s)) }
{
    if text.eq_ignore_ascii_case("BEGIN") {
        Some(RelationStatement::Begin)
    } else if text.eq_ignore_ascii_case("COMMIT") {
        Some(RelationStatement::Commit)
    } else {
        match relations.find(text) {
            Some(place) => Some(RelationStatement::Relation(place)),
            None => None,
        }
    }
}
