//! What a server is asked.

ghost use Rattle.alm_program.specs.OwnedEndpoints.{AreOwnedEndpoints};

use crate::owned_endpoints::OwnedEndpoints;

/// What a server is asked: to serve the slots of a device's file there, for `conns` connections in all; 0 is without end. If a
/// device call takes longer than `patience` seconds, no client is served until it ends. The device is scrubbed each time after
/// `scrub` seconds; 0 is never.
#[derive(Drop)]
pub struct ServeOrder {
    pub device: String,
    pub endpoints: OwnedEndpoints,
    pub conns: u32,
    pub patience: Option<u32>,
    pub scrub: u32,
    pub ghost ports: { AreOwnedEndpoints endpoints },
}
