//! The head of a reply.
ghost use Rattle.std.specs.Prelude.{◌≡◌, ◌+◌, ◌≤◌, ◌++◌, length};
ghost use Rattle.arrayvec.specs.ArrayVec.{array_vec_len};
ghost use Rattle.requests.specs.Reply as Spec;

use crate::resource::Resource;
use crate::status::Status;
use arrayvec::ArrayVec;
use itoa::Buffer;

/// The parts of a reply's head.
#[derive(Clone, Copy, Debug, PartialEq, Eq)]
pub struct ReplyHead {
    /// The status.
    pub status: Status,
    /// The body is JSON; else it is plain text.
    pub is_json: bool,
    /// The length of the body, in bytes.
    pub length: u64,
    /// The resource that the path names, if it has no such method.
    pub allow: Option<Resource>,
    /// The connection ends after the reply.
    pub closes: bool,
}

/// The bytes of a reply's head, with the empty line that ends it. It takes no memory.
pub fn head_text(head: &ReplyHead) -> ArrayVec<u8, 512>
    ensures { result.items ≡ Spec.head_text head.now }
{
    let mut room = ArrayVec::new();
    put_status(&mut room, head.status);
    put_type(&mut room, head.is_json);
    put_length(&mut room, head.length);
    put_allow(&mut room, head.allow);
    put_challenge(&mut room, head.status);
    put_close(&mut room, head.closes);
    put(&mut room, b"\r\n");
    room
}

fn put_status(room: &mut ArrayVec<u8, 512>, status: Status)
    requires { array_vec_len room.old ≤ 0 }
    ensures text { room.new.items ≡ room.old.items ++ Spec.status_line status }
    ensures len { array_vec_len room.new ≤ 46 }
{
    put(room, b"HTTP/1.1 ");
    put(room, status.digits().as_bytes());
    put(room, b" ");
    put(room, status.phrase().as_bytes());
    put(room, b"\r\n");
}

fn put_type(room: &mut ArrayVec<u8, 512>, is_json: bool)
    requires { array_vec_len room.old ≤ 46 }
    ensures text { room.new.items ≡ room.old.items ++ Spec.type_line is_json }
    ensures len { array_vec_len room.new ≤ 78 }
{
    put_line(room, b"content-type: ", type_name(is_json));
}

fn type_name(is_json: bool) -> &'static [u8]
    ensures text { result.now ≡ Spec.type_name is_json }
    ensures len { length result.now ≤ 16 }
{
    if is_json {
        b"application/json"
    } else {
        b"text/plain"
    }
}

fn put_length(room: &mut ArrayVec<u8, 512>, length: u64)
    requires { array_vec_len room.old ≤ 78 }
    ensures text { room.new.items ≡ room.old.items ++ Spec.length_line length }
    ensures len { array_vec_len room.new ≤ 136 }
{
    let mut digits = Buffer::new();
    put_line(room, b"content-length: ", digits.format(length).as_bytes());
}

fn put_allow(room: &mut ArrayVec<u8, 512>, allow: Option<Resource>)
    requires { array_vec_len room.old ≤ 136 }
    ensures text { room.new.items ≡ room.old.items ++ Spec.allow_line allow }
    ensures len { array_vec_len room.new ≤ 156 }
{
    if let Some(resource) = allow {
        put_line(room, b"allow: ", resource.allow());
    }
}

fn put_challenge(room: &mut ArrayVec<u8, 512>, status: Status)
    requires { array_vec_len room.old ≤ 156 }
    ensures text { room.new.items ≡ room.old.items ++ Spec.challenge_line status }
    ensures len { array_vec_len room.new ≤ 182 }
{
    if status.code().as_u16() == 401 {
        put_line(room, b"www-authenticate: ", b"Bureau");
    }
}

fn put_close(room: &mut ArrayVec<u8, 512>, closes: bool)
    requires { array_vec_len room.old ≤ 182 }
    ensures text { room.new.items ≡ room.old.items ++ Spec.close_line closes }
    ensures len { array_vec_len room.new ≤ 201 }
{
    if closes {
        put_line(room, b"connection: ", b"close");
    }
}

// A line of a head.
fn put_line(room: &mut ArrayVec<u8, 512>, name: &[u8], value: &[u8])
    requires { array_vec_len room.old + length name.now + length value.now + 2 ≤ 512 }
    ensures text { room.new.items ≡ room.old.items ++ Spec.line name.now value.now }
    ensures len { array_vec_len room.new ≡ array_vec_len room.old + length name.now + length value.now + 2 }
{
    put(room, name);
    put(room, value);
    put(room, b"\r\n");
}

fn put(room: &mut ArrayVec<u8, 512>, text: &[u8])
    requires { array_vec_len room.old + length text.now ≤ 512 }
    ensures text { room.new.items ≡ room.old.items ++ text.now }
    ensures len { array_vec_len room.new ≡ array_vec_len room.old + length text.now }
{
    match room.try_extend_from_slice(text) {
        Ok(()) => {}
        Err(_) => unreachable!(),
    }
}
