//! One or two modules for each crate that is tested, and several calls on one session.
mod calls;
mod overflow_dispatch_tests;
mod papi_base_tests;
mod postfix_rules_tests;
mod preset_csv_tests;
mod profil_hist_tests;
mod region_report_tests;
mod script_lines_tests;
mod soak_input_tests;
mod stream_reader_tests;
mod thread_registry_tasks_tests;
mod thread_session_tests;
mod user_events_tests;
