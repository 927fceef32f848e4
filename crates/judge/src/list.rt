// A list that is lent as five columns.
ghost use Rattle.std.specs.Prelude.{◌≡◌, MatchResult, true, false, length};
ghost use Rattle.plan.specs.Lent.{read_list, level, list};

use plan::Record;
use plan::lent::{Changes, Records};
use plan::refusal::Uneven;

// Five columns that are equally long.
#[derive(Clone, Copy)]
pub struct Level<'a> {
    columns: Changes<'a>,
    ghost locations: { length columns.location.now ≡ length columns.kind.now },
    ghost parents: { length columns.parent.now ≡ length columns.kind.now },
    ghost froms: { length columns.from.now ≡ length columns.kind.now },
    ghost values: { length columns.value.now ≡ length columns.kind.now },
}

// Test 1 of the list's own columns: they are equally long.
impl<'a> TryFrom<Changes<'a>> for Level<'a> {
    type Error = Uneven;

    ghost try_from_gives = { λ l r.
        MatchResult r (λ v. (v.columns ≡ l) × (level (read_list l) ≡ true)) (λ _. level (read_list l) ≡ false) };

    #[tactic(auto, unfolding(plan::specs::Lent::level))]
    fn try_from(l: Changes<'a>) -> Result<Level<'a>, Uneven> {
        let n = l.kind.len();
        if l.location.len() != n || l.parent.len() != n || l.from.len() != n || l.value.len() != n {
            return Err(Uneven);
        }
        Ok(Level { columns: l })
    }
}

impl Records for Level<'_> {
    ghost list = { λ l. list (read_list l.columns) };

    #[tactic(auto, using(crate::proofs::Listing::listed_length))]
    fn len(&self) -> usize {
        self.columns.kind.len()
    }

    #[tactic(auto, using(crate::proofs::Listing::listed_length, crate::proofs::Listing::list_record))]
    fn record(&self, j: usize) -> Record {
        Record {
            kind: self.columns.kind[j],
            location: self.columns.location[j],
            parent: self.columns.parent[j],
            from: self.columns.from[j],
            value: self.columns.value[j],
        }
    }
}
