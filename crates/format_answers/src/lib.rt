//! Vectors of the standards, and each public call of the formats and of the connection once on its happy path.
//!
//! The crate has tests alone, so that no crate below is proved twice.
#![tactic(auto)]

#[cfg(test)]
mod grpc_frame_tests;
#[cfg(test)]
mod grpc_meta_tests;
#[cfg(test)]
mod h2_flow_tests;
#[cfg(test)]
mod h2_frames_tests;
#[cfg(test)]
mod h2_streams_tests;
#[cfg(test)]
mod hpack_blocks_tests;
#[cfg(test)]
mod hpack_codes_tests;
#[cfg(test)]
mod links_tests;
#[cfg(test)]
mod listed;
#[cfg(test)]
mod outside_tests;
#[cfg(test)]
mod proto_fields_tests;
#[cfg(test)]
mod resource_names_tests;
#[cfg(test)]
mod wire_bytes_tests;
