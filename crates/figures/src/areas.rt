// Slab steel of grade 420, which every printed figure is of.
// Five numbers and not a `Query`, which each call would have to fill in with the same grade.
use answers::Answer;
use steel::query::Query;
use steel::steel;

pub fn grade_420(m: u64, b: u64, t: u64, d: u64, fc: u64) -> Answer {
    Answer::of_query(steel(Query {
        m,
        b,
        t,
        d,
        fc,
        fy: 420,
    }))
}
