//! Answers that are given one by one, of which the last comes again.
ghost use Rattle.std.specs.Prelude.{◌≡◌, ◌∷◌, [], Some};
ghost use Rattle.auth_io.specs.Told.{Adds};
ghost use Rattle.auth_io.specs.Scripts.{GivesFirst, coming_after, given_first};

/// A list of answers, and how many were given.
#[derive(Drop)]
pub(crate) struct Script<T> {
    pub(crate) answers: Vec<T>,
    pub(crate) given: u64,
}

impl<T: Copy + Drop> Script<T> {
    pub(crate) fn new(answers: Vec<T>) -> Script<T>
        ensures answers { result.answers.items ≡ answers.items }
        ensures given { result.given ≡ 0 }
    {
        Script { answers, given: 0 }
    }

    /// The next answer, the last again past the list's end, or the default where the list is empty.
    pub(crate) fn next(&mut self, default: T) -> T
        ensures shown { Adds (Some (given_first default self.old.answers.items self.old.given))
            (Some (given_first default self.new.answers.items self.new.given)) (result ∷ []) }
        ensures coming { GivesFirst default (Some (coming_after self.old.answers.items self.old.given))
            (Some (coming_after self.new.answers.items self.new.given)) result }
    {
        let given = self.given;
        self.given = given.saturating_add(1);
        answer_at(self.answers.as_slice(), given, default)
    }
}

ghost use Rattle.auth_io.specs.Scripts.{given_at};

fn answer_at<T: Copy + Drop>(answers: &[T], given: u64, default: T) -> T
    ensures { result ≡ given_at default answers.now given }
{
    if answers.is_empty() {
        return default;
    }
    let last = answers.len() - 1;
    if given < last as u64 {
        answers[given as usize]
    } else {
        answers[last]
    }
}
