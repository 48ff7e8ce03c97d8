//! Worked examples of records, files, histories and audits, one file a part.
#![tactic(auto)]

#[cfg(test)]
mod audit;
#[cfg(test)]
mod audit_limits;
#[cfg(test)]
mod audit_parts;
#[cfg(test)]
mod devices;
#[cfg(test)]
mod file_audits;
#[cfg(test)]
mod file_texts;
#[cfg(test)]
mod files;
#[cfg(test)]
mod histories;
#[cfg(test)]
mod history;
#[cfg(test)]
mod history_files;
#[cfg(test)]
mod history_parts;
#[cfg(test)]
mod memory;
#[cfg(test)]
mod packet_parts;
#[cfg(test)]
mod readme;
#[cfg(test)]
mod record_example;
#[cfg(test)]
mod records;
