//! Laws of the alarm model, for whoever answers for a plant's alarms. Those of states, acknowledgement, latching and reset, shelving and
//! suppression are sentences of the state model of ANSI/ISA-18.2 and IEC 62682. Those of setpoint and deadband, of stamps, of who may
//! ask, of refusals and of all figures are this project's own. docs/ALARMS.md says of each sentence whose it is.
//!
//! A law is about the definitions that the server is proved to follow. It holds for any action of every plant that keeps the rules, so
//! of every plant that the server reaches. A function here does nothing, and its contract is the law.
//!
//! | law | says |
//! |---|---|
//! | [`table::the_laws_leave_one_table`] | the table of the core states is the only one that meets eight sentences |
//! | [`table::the_laws_leave_one_row`] | what an action makes of an alarm is the only outcome whose fields are as the laws say |
//! | [`plant::the_laws_leave_one_plant`] | what an accepted action leaves is the only plant that meets the sentences on time, alarms, stamps, measures, floods and attributes |
//! | [`table::taken_just_then`] | a request is accepted exactly if its slot may ask, the alarm takes it, and action numbers are left |
//! | [`table::a_refusal_names_the_first_reason`] | a request is refused for the first of the reasons against it, and accepted if there is none; each has its number |
//! | [`plant::each_alarm_is_left_by_the_laws`] | the alarm that is named, those whose shelving ends, and all others, which stay |
//! | [`showing::an_alarm_is_shown_as_it_is`] | what is shown of an alarm is the only thing that answers seven questions as it does |
//! | [`lists::the_laws_leave_one_list`] and those next to it | a list has just its alarms, in order; no active or shelved alarm is hidden; the lists add up; stale and chattering alarms, floods |
//! | [`plant::nobody_acknowledges_for_the_operator`] | an alarm leaves the unacknowledged states by a console's ACK, or by a flag that is set |
//! | [`plant::latched_stays_until_reset`] | a latched alarm becomes normal by a console's RESET, or by a flag that is set |
//! | [`plant::a_latching_alarm_ends_only_by_reset`] | a latching alarm that asks for the operator ends so too, also after ACK and return |
//! | [`plant::freed_is_annunciated_anew`] | an alarm whose last flag falls while it is active is annunciated; else only one whose condition comes is |
//! | [`plant::suppressed_asks_for_nobody`] | a suppressed alarm is normal, and is in no list by priority |
//! | [`plant::a_shelved_alarm_comes_back`] | a shelving lasts as its console asked, and over whole runs none is overdue |
//! | [`plant::shelvings_end_by_unshelve_or_clock`] | a shelving ends by a console's UNSHELVE or by a CLOCK at its deadline, and then it does end |
//! | [`plant::flags_are_as_asked`] | out of service and by design are as was asked last |
//! | [`askers::each_action_has_its_asker`] and those next to it | only consoles operate, and are heard; only the feed moves conditions, only the clock moves time |
//! | [`clock`] | the time is as CLOCK says, shelvings end in order, PRIO and SETP set that alone |
//! | [`events::a_row_changes_only_by_its_events`] | between two looks a row changes only if an action names the alarm, or a CLOCK reaches the deadline that was shown |
//! | [`stamps::no_stamp_is_given_twice`] | over whole runs no stamp is given to two alarms, or to one again |
//! | [`stamps::stamps_are_counted`] | over whole runs as many stamps are given as there are annunciations and shelvings |
//! | [`alarm`] | the same of one alarm that takes an action, whose condition follows the value |
//!
//! Not covered: that a CLOCK comes, or that anything reaches an operator. A console is a slot, and no person.
//!
//! Proved:
//! - of core states, alarms and plants after an action, what is accepted, refused, shown and listed each definition is the only one that
//!   meets its laws (by `the_laws_leave_one_plant`, `the_laws_leave_one_table`, `the_laws_leave_one_row`, `taken_just_then`,
//!   `a_refusal_names_the_first_reason`, `an_alarm_is_shown_as_it_is`, `the_laws_leave_one_list`, `the_laws_leave_one_list_by_number`)
//! - no active alarm is hidden, no acknowledgement is lost or made for the operator, what latches stays until RESET, no shelving is
//!   overdue (by `an_active_alarm_is_listed`, `consoles_are_heard`, `nobody_acknowledges_for_the_operator`,
//!   `a_latching_alarm_ends_only_by_reset`, `a_shelved_alarm_comes_back`)
//! - laws for an alarm engineer: who ends what, who is annunciated, who may ask, stamps of whole runs (by `plant`, `askers`, `clock`, `stamps`)
//! - between two counts a row differs only if an action between them names the alarm, or a CLOCK reaches the deadline that ROW showed (by
//!   `a_row_changes_only_by_its_events`)
#![tactic(auto)]

pub mod alarm;
pub mod askers;
pub mod clock;
pub mod events;
pub mod lists;
pub mod plant;
pub mod showing;
pub mod stamps;
pub mod table;
