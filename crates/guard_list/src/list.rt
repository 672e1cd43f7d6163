// Is a list of guards one that can be taken?
ghost use Rattle.std.specs.Prelude.{◌≡◌};
ghost use Rattle.guard_list.specs.GuardList.{are_answers, is_guard_list};

// The most guards of a list.
const MOST: usize = 32;

// Is each answer 0 or 1?
fn are_answers(answers: &[u64]) -> bool
    ensures { result ≡ are_answers answers.now }
{
    answers.iter().all(|answer| *answer <= 1)
}

#[tactic(auto, unfolding(crate::specs::GuardList::is_guard_list))]
pub(crate) fn is_guard_list(conditions: &[u64], answers: &[u64]) -> bool
    ensures { result ≡ is_guard_list conditions.now answers.now }
{
    conditions.len() <= MOST && answers.len() == conditions.len() && are_answers(answers)
}
