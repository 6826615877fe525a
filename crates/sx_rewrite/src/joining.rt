//! Accepted sets with other rules.

ghost use Rattle.sx_rewrite.specs.Adds.{IsSetJoined};
ghost use Rattle.sx_rewrite.specs.Joins.{CanJoin};

use crate::accepted::Accepted;
use crate::certificates::Certificates;
use crate::grown::Grown;
use sx_plain::PlainTable;

impl Accepted {
    /// The set with these rules and this table, and with what is stored of the new rules after
    /// what is stored so far. The one refusal is out of memory, and hands the set back as it was.
    pub(crate) fn joined(
        self,
        grown: Grown,
        plain: PlainTable,
        more: Certificates,
    ) -> Result<Accepted, Accepted>
        requires { CanJoin self grown plain more }
        ensures { IsSetJoined self grown plain more.flats.items result }
    {
        let Accepted {
            alloc,
            base,
            rules,
            plain_rules,
            first,
            plain: table,
            flats,
            sizes,
        } = self;
        match (Certificates { flats, sizes }).appended(more) {
            Ok(Certificates { flats, sizes }) => {
                drop(rules);
                drop(plain_rules);
                drop(table);
                Ok(Accepted {
                    alloc,
                    base,
                    rules: grown.rules,
                    plain_rules: grown.plain_rules,
                    first,
                    plain,
                    flats,
                    sizes,
                })
            }
            Err(Certificates { flats, sizes }) => {
                drop(grown);
                drop(plain);
                Err(Accepted {
                    alloc,
                    base,
                    rules,
                    plain_rules,
                    first,
                    plain: table,
                    flats,
                    sizes,
                })
            }
        }
    }
}
