#![tactic(auto)]
// What a search promises, as theorems over the model of a book. Each stands on the contract of a call that does nothing
// else.
ghost use Rattle.promises.specs.Bands.{BandsKeepLaws, BandsAnswer};
ghost use Rattle.promises.specs.Answering.{AnswersAreBands};
ghost use Rattle.promises.specs.Cases.{WorkedCases};
ghost use Rattle.promises.specs.Checking.{Checked};
ghost use Rattle.promises.specs.Filling.{Fillable};
ghost use Rattle.promises.specs.Foundations.{Counting, Listed, Upward, Standing, Onward, SameAnswers};
ghost use Rattle.promises.specs.Halting.{HaltsOnly};
ghost use Rattle.promises.specs.Histories.{EveryHistory};
ghost use Rattle.promises.specs.Promises.{Sound, SoundDone, Frugal, Decisive, Exact};
ghost use Rattle.promises.specs.Stepping.{Stepping};
ghost use Rattle.promises.specs.Turning.{Turning};

// The promises, of every search.

pub fn answers_begin_with_the_handed()
    ensures { Sound }
{}

pub fn answers_are_the_handed_after_done()
    ensures { SoundDone }
{}

pub fn settling_sets_hold_the_opened()
    ensures { Frugal }
{}

pub fn done_when_something_settles()
    ensures { Decisive }
{}

pub fn whole_books_are_done()
    ensures { Exact }
{}

// And of every run, whatever was called on it.
pub fn promises_hold_after_any_history()
    ensures { EveryHistory }
{}

// A search that stands halts at a dead page, with too much waiting, or with a full list: it never asks for a page that the source does not have.
pub fn halts_for_three_reasons()
    ensures { HaltsOnly }
{}

// What a search does, in the terms of the book: for the code that follows it.

pub fn next_steps_along_the_row()
    ensures { Stepping }
{}

pub fn least_entries_lead_along_the_row()
    ensures { Turning }
{}

// Bands are such a question.

pub fn bands_keep_laws()
    ensures { BandsKeepLaws }
{}

pub fn bands_answer()
    ensures { BandsAnswer }
{}

// What the promises rest on.

pub fn answers_are_bands_in_order()
    ensures { AnswersAreBands }
{}

pub fn answer_counts_like_field()
    ensures { Counting }
{}

pub fn listed_tests_like_field()
    ensures { Listed }
{}

pub fn opened_pages_rise()
    ensures { Upward }
{}

pub fn answer_stands_on_opened()
    ensures { Standing }
{}

pub fn opened_pages_lead_on()
    ensures { Onward }
{}

pub fn same_pages_same_answers()
    ensures { SameAnswers }
{}

pub fn named_pages_can_be_filled()
    ensures { Fillable }
{}

// Worked books and searches.

pub fn tested_books_are_lawful()
    ensures { Checked }
{}

pub fn worked_cases_hold()
    ensures { WorkedCases }
{}
