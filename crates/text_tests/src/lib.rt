//! Tests of the texts, of the forms and of the top call: each public call with ample memory, and worked rows.
#![tactic(auto)]

#[cfg(test)]
mod of_check_form;
#[cfg(test)]
mod of_checker;
#[cfg(test)]
mod of_dc_forms;
#[cfg(test)]
mod of_dc_top;
#[cfg(test)]
mod of_made_runs;
#[cfg(test)]
mod of_made_scripts;
#[cfg(test)]
mod of_script_text;
#[cfg(test)]
mod of_summary;
#[cfg(test)]
mod of_transcript_entries;
#[cfg(test)]
mod of_transcript_text;
