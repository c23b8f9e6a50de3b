// Any list of calls, made on a new run.
ghost use Rattle.std.specs.Prelude.{ℕ, List, [], ◌∷◌, ◌++◌};
ghost use Rattle.stations.specs.declared.measures.Measures.{Measures};
ghost use Rattle.books.specs.Books.{Book};
ghost use Rattle.search.specs.declared.call.Call.{Call};
ghost use Rattle.search.specs.Playing.{Made, Played};

use crate::call::Call;
use crate::run::Run;
use rankings::Ranking;
use sources::PageSource;

// Makes a call. What it answers is in the history.
pub fn make<S: PageSource, R: Ranking>(run: &mut Run<S, R>, call: Call)
    ensures { (rank : Measures → ℕ) (b : Book) (calls : List Call) → Made S.PageSource R.Ranking rank b calls run.old → Made S.PageSource R.Ranking rank b (calls ++ call ∷ []) run.new }
{
    match call {
        Call::Start(question) => {
            let _ = run.start(question);
        }
        Call::Next => {
            let _ = run.next();
        }
        Call::Stop => {
            let _ = run.stop();
        }
    }
}

// Makes the calls on a new run, and gives it back as they leave it: with all that is promised of it.
pub fn play<S: PageSource, R: Ranking>(source: S, ranking: R, calls: &[Call]) -> Run<S, R>
    ensures { Played S.PageSource R.Ranking (R.score ranking) (S.book source) calls.now result }
{
    let mut run = Run::new(source, ranking);
    for call in calls {
        make(&mut run, *call);
    }
    run
}
