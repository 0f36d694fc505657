// The words of the places: those of the free ones are cleared, and no others are touched.
#![tactic(auto)]

ghost use Rattle.std.specs.Prelude.{◌≡◌, ◌<◌, ◌≤◌, length};
ghost use Rattle.model.specs.Limits.{jobs_most, job_words_least};
ghost use Rattle.relation.specs.Rows.{has};
ghost use Rattle.places.specs.Words.{ClearedBut};

// Bit p of the word, which stands for place p, is set.
fn is_taken(taken: u64, place: usize) -> bool
    requires { place < jobs_most }
    ensures { result ≡ has taken place }
{
    (taken >> place) & 1 == 1
}

// The words of the places that are not taken become zero, whatever they held. Bit p of the word is place p.
pub fn clear_free(words: &mut [u64], taken: u64)
    requires { job_words_least ≤ length words.old }
    ensures { ClearedBut taken words.old words.new }
{
    for place in 0..model::JOBS_MOST {
        if !is_taken(taken, place) {
            let from = place * model::SCRATCH_LEAST;
            let to = from + model::SCRATCH_LEAST;
            relation::clear(&mut words[from..to], model::SCRATCH_LEAST);
        }
    }
}
