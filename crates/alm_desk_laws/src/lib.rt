//! Laws of what a desk prints: the sentences of the alarm model, said of lines.
//!
//! A desk that began with a new plant was fed bytes. What it has done is a list of actions, and its next replies are those that the
//! laws of [alm_laws](../../alm_laws/src/lib.rt) leave after these actions. A function here does nothing, and its contract is the law.
//!
//! Not covered: a desk whose storage has stopped, or that lacks memory for a list; [alm_desk](../../alm_desk/src/lib.rt) says what these
//! answer. Nor that any line comes.
//!
//! Proved:
//! - the plant is the new one after the actions that its lines have done, each admitted at its turn (by
//!   `the_plant_is_what_its_lines_have_done`)
//! - OK answers exactly what may be done, and NO has the first reason against the rest (by `ok_is_printed_where_it_may_be_done`,
//!   `no_is_printed_for_the_first_reason`)
//! - STATE and ROW print the alarm as it is; LIST, STALE and CHATTER just the alarms that belong to them, in order (by
//!   `an_alarm_is_printed_as_it_is`, `a_list_is_printed_whole`)
//! - SINCE prints what the lines have done after a number, in order, or that it is forgotten (by
//!   `what_happened_is_printed_in_order`)
#![tactic(auto)]

pub mod printing;
