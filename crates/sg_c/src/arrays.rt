//! Arrays of questions about a group, and of their answers: one of each for each place.
ghost use Rattle.std.specs.Prelude.{◌≡◌, ◌≢◌, ◌↔◌, None, Some, List, IsTrue, IfSome, MatchOption, length};
ghost use Rattle.std.specs.List.{All};
ghost use Rattle.lattice_algebra.specs.Operator.{Operator};
ghost use Rattle.sg_c.specs.Arrays.{AreAnswers, IsFirstBad, IsRefusal, IsEachAnswered};

use crate::handle::Handle;
use crate::{EMPTY, OUT_OF_RANGE, WRONG_COUNT};
use group_closure::Group;
use std::alloc::Global;

/// A way to ask a group.
pub trait Asking {
    type Question: Copy;

    type Answer: Copy;

    /// The question is in range.
    ghost can_ask: { Self.Question → Type 0 };

    /// What it is answered about the group of these members.
    ghost is_answer: { Self → List Operator → Self.Question → Self.Answer → Type 0 };

    /// This way suits the group of these members.
    ghost suits: { Self → List Operator → Type 0 } = { λ _ _. Unit {0} };

    /// Whether the question is in range.
    fn can_ask(question: &Self::Question) -> bool
        ensures { IsTrue result ↔ can_ask question.now };

    /// Its answer.
    fn answer(&self, group: &Group, question: &Self::Question) -> Self::Answer
        requires suits { suits self.now group.now }
        requires in_range { can_ask question.now }
        ensures { is_answer self.now group.now question.now result };
}

/// The place of the first question that is out of range.
fn first_bad<K: Asking>(questions: &[K::Question]) -> Option<usize>
    ensures { MatchOption result (All K.can_ask questions.now)
        (IsFirstBad K.can_ask questions.now) }
{
    for i in 0..questions.len() {
        if !K::can_ask(&questions[i]) {
            return Some(i);
        }
    }
    None
}

/// The status of a call that is refused whatever the group, where it is: the arrays are of different lengths, or a question is out
/// of range, whose place is told.
pub fn refusal<K: Asking>(
    questions: &[K::Question],
    answers_count: usize,
    bad: &mut usize,
) -> Option<u8>
    ensures refused { IfSome result (IsRefusal K.can_ask questions.now answers_count bad.new) }
    ensures count { result ≡ None → answers_count ≡ length questions.now }
    ensures in_range { result ≡ None → All K.can_ask questions.now }
    ensures no_bad { result ≢ Some OUT_OF_RANGE → bad.new ≡ bad.old }
{
    if questions.len() != answers_count {
        return Some(WRONG_COUNT);
    }
    match first_bad::<K>(questions) {
        Some(place) => {
            *bad = place;
            Some(OUT_OF_RANGE)
        }
        None => None,
    }
}

/// Writes the answer of each question at its place.
pub fn answer_each<K: Asking>(
    asking: &K,
    group: &Group,
    questions: &[K::Question],
    answers: &mut [K::Answer],
)
    requires count { length answers.old ≡ length questions.now }
    requires suits { K.suits asking.now group.now }
    requires in_range { All K.can_ask questions.now }
    ensures { AreAnswers (K.is_answer asking.now group.now) questions.now answers.new }
{
    for i in 0..answers.len() {
        answers[i] = asking.answer(group, &questions[i]);
    }
}

/// Answers each question about the group that the handle holds. Where one is out of range, its place is told.
pub fn ask_each<K: Asking>(
    alloc: Global,
    group: &mut Handle,
    asking: &K,
    questions: &[K::Question],
    answers: &mut [K::Answer],
    bad: &mut usize,
) -> u8
    requires { (members : List Operator) → K.suits asking.now members }
    ensures answered { IsEachAnswered K.can_ask (K.is_answer asking.now) group.old.group
        questions.now answers.old answers.new bad.old bad.new result }
    ensures same { group.new.group ≡ group.old.group }
{
    if let Some(status) = refusal::<K>(questions, answers.len(), bad) {
        return status;
    }
    let Some(held) = group.take(alloc) else {
        return EMPTY;
    };
    answer_each(asking, held.group(), questions, answers);
    group.put(held);
    0
}
