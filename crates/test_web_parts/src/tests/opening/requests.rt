//! Requests, and what RFC 6455 (4.2), RFC 9110 and RFC 9112 have them answered with, where `desk.example` is a host that is named, and
//! `https://pages.example` an origin.

/// A request, the status that it is answered with, and whether `binary` is chosen.
pub struct Request {
    pub bytes: &'static [u8],
    pub status: u16,
    pub speaks_binary: bool,
}

pub static REQUESTS: [Request; 55] = [
    // noVNC in Chromium
    Request {
        bytes: b"GET /websockify HTTP/1.1\r\nHost: localhost:5800\r\nConnection: Upgrade\r\nPragma: no-cache\r\n\
            Cache-Control: no-cache\r\n\
            User-Agent: Mozilla/5.0 (X11; Linux x86_64) AppleWebKit/537.36 (KHTML, like Gecko) Chrome/124.0.0.0 Safari/537.36\r\n\
            Upgrade: websocket\r\nOrigin: http://localhost:5800\r\nSec-WebSocket-Version: 13\r\n\
            Accept-Encoding: gzip, deflate, br, zstd\r\nAccept-Language: en-US,en;q=0.9\r\n\
            Sec-WebSocket-Key: dGhlIHNhbXBsZSBub25jZQ==\r\n\
            Sec-WebSocket-Extensions: permessage-deflate; client_max_window_bits\r\nSec-WebSocket-Protocol: binary\r\n\r\n",
        status: 101,
        speaks_binary: true,
    },
    // a page's own socket in Firefox, with no subprotocol
    Request {
        bytes: b"GET /a?b=c HTTP/1.1\r\nHost: 127.0.0.1:5800\r\n\
            User-Agent: Mozilla/5.0 (X11; Linux x86_64; rv:125.0) Gecko/20100101 Firefox/125.0\r\nAccept: */*\r\n\
            Accept-Language: en-US,en;q=0.5\r\nAccept-Encoding: gzip, deflate, br\r\nSec-WebSocket-Version: 13\r\n\
            Origin: http://127.0.0.1:5800\r\nSec-WebSocket-Extensions: permessage-deflate\r\n\
            Sec-WebSocket-Key: dGhlIHNhbXBsZSBub25jZQ==\r\nConnection: keep-alive, Upgrade\r\nSec-Fetch-Dest: empty\r\n\
            Sec-Fetch-Mode: websocket\r\nSec-Fetch-Site: same-origin\r\nPragma: no-cache\r\nCache-Control: no-cache\r\n\
            Upgrade: websocket\r\n\r\n",
        status: 101,
        speaks_binary: false,
    },
    // Python's websockets
    Request {
        bytes: b"GET / HTTP/1.1\r\nHost: [::1]:5800\r\nUpgrade: websocket\r\nConnection: Upgrade\r\n\
            Sec-WebSocket-Key: dGhlIHNhbXBsZSBub25jZQ==\r\nSec-WebSocket-Version: 13\r\n\
            Sec-WebSocket-Extensions: permessage-deflate; client_max_window_bits\r\n\
            User-Agent: Python/3.12 websockets/12.0\r\n\r\n",
        status: 101,
        speaks_binary: false,
    },
    // curl, for a page
    Request {
        bytes: b"GET / HTTP/1.1\r\nHost: 127.0.0.1:5800\r\nUser-Agent: curl/8.5.0\r\nAccept: */*\r\n\r\n",
        status: 426,
        speaks_binary: false,
    },
    // curl, for a WebSocket
    Request {
        bytes: b"GET / HTTP/1.1\r\nHost: 127.0.0.1:5800\r\nUser-Agent: curl/8.5.0\r\nAccept: */*\r\nUpgrade: websocket\r\n\
            Connection: Upgrade\r\nSec-WebSocket-Version: 13\r\nSec-WebSocket-Key: dGhlIHNhbXBsZSBub25jZQ==\r\n\r\n",
        status: 101,
        speaks_binary: false,
    },
    // RFC 6455, 1.2, at a host that is named
    Request {
        bytes: b"GET /chat HTTP/1.1\r\nHost: desk.example\r\nUpgrade: websocket\r\nConnection: Upgrade\r\n\
            Sec-WebSocket-Key: dGhlIHNhbXBsZSBub25jZQ==\r\nOrigin: https://pages.example\r\n\
            Sec-WebSocket-Protocol: chat, superchat\r\nSec-WebSocket-Version: 13\r\n\r\n",
        status: 101,
        speaks_binary: false,
    },
    // names of lines, and values without letters' case
    Request {
        bytes: b"GET / HTTP/1.1\r\nhOST: LOCALHOST\r\nUPGRADE: WebSocket\r\nconnection: upgrade\r\n\
            sec-websocket-key: dGhlIHNhbXBsZSBub25jZQ==\r\nSEC-WEBSOCKET-VERSION: 13\r\noRIGIN: HTTPS://LocalHost\r\n\r\n",
        status: 101,
        speaks_binary: false,
    },
    // a list of subprotocols over two lines, with spaces and tabs
    Request {
        bytes: b"GET / HTTP/1.1\r\nHost: 127.0.0.1:5800\r\nUpgrade: websocket\r\nConnection: Upgrade\r\n\
            Sec-WebSocket-Key: dGhlIHNhbXBsZSBub25jZQ==\r\nSec-WebSocket-Version: 13\r\n\
            Sec-WebSocket-Protocol: base64 ,\tchat\r\nSec-WebSocket-Protocol: x,  binary\t\r\n\r\n",
        status: 101,
        speaks_binary: true,
    },
    // a subprotocol in other letters is another
    Request {
        bytes: b"GET / HTTP/1.1\r\nHost: 127.0.0.1:5800\r\nUpgrade: websocket\r\nConnection: Upgrade\r\n\
            Sec-WebSocket-Key: dGhlIHNhbXBsZSBub25jZQ==\r\nSec-WebSocket-Version: 13\r\n\
            Sec-WebSocket-Protocol: Binary\r\n\r\n",
        status: 101,
        speaks_binary: false,
    },
    // a list of protocols
    Request {
        bytes: b"GET / HTTP/1.1\r\nHost: 127.0.0.1:5800\r\nUpgrade: h2c, websocket\r\nConnection: Upgrade\r\n\
            Sec-WebSocket-Key: dGhlIHNhbXBsZSBub25jZQ==\r\nSec-WebSocket-Version: 13\r\n\r\n",
        status: 101,
        speaks_binary: false,
    },
    // an absolute target
    Request {
        bytes: b"GET http://127.0.0.1:5800/ HTTP/1.1\r\nHost: 127.0.0.1:5800\r\nUpgrade: websocket\r\nConnection: Upgrade\r\n\
            Sec-WebSocket-Key: dGhlIHNhbXBsZSBub25jZQ==\r\nSec-WebSocket-Version: 13\r\n\r\n",
        status: 101,
        speaks_binary: false,
    },
    // an empty line in front (RFC 9112, 2.2)
    Request {
        bytes: b"\r\nGET / HTTP/1.1\r\nHost: 127.0.0.1:5800\r\nUpgrade: websocket\r\nConnection: Upgrade\r\n\
            Sec-WebSocket-Key: dGhlIHNhbXBsZSBub25jZQ==\r\nSec-WebSocket-Version: 13\r\n\r\n",
        status: 101,
        speaks_binary: false,
    },
    // HTTP/1.0
    Request {
        bytes: b"GET / HTTP/1.0\r\nHost: 127.0.0.1:5800\r\nUpgrade: websocket\r\nConnection: Upgrade\r\n\
            Sec-WebSocket-Key: dGhlIHNhbXBsZSBub25jZQ==\r\nSec-WebSocket-Version: 13\r\n\r\n",
        status: 505,
        speaks_binary: false,
    },
    // POST
    Request {
        bytes: b"POST / HTTP/1.1\r\nHost: 127.0.0.1:5800\r\nUpgrade: websocket\r\nConnection: Upgrade\r\n\
            Sec-WebSocket-Key: dGhlIHNhbXBsZSBub25jZQ==\r\nSec-WebSocket-Version: 13\r\n\r\n",
        status: 405,
        speaks_binary: false,
    },
    // a method in small letters
    Request {
        bytes: b"get / HTTP/1.1\r\nHost: 127.0.0.1:5800\r\nUpgrade: websocket\r\nConnection: Upgrade\r\n\
            Sec-WebSocket-Key: dGhlIHNhbXBsZSBub25jZQ==\r\nSec-WebSocket-Version: 13\r\n\r\n",
        status: 405,
        speaks_binary: false,
    },
    // HTTP/2's preface
    Request {
        bytes: b"PRI * HTTP/2.0\r\n\r\nSM\r\n\r\n",
        status: 400,
        speaks_binary: false,
    },
    // no HTTP
    Request {
        bytes: b"RFB 003.008\n\r\n\r\n",
        status: 400,
        speaks_binary: false,
    },
    // nothing but empty lines
    Request {
        bytes: b"\r\n\r\n",
        status: 400,
        speaks_binary: false,
    },
    // a line with no colon
    Request {
        bytes: b"GET / HTTP/1.1\r\nHost: 127.0.0.1:5800\r\nUpgrade: websocket\r\nConnection: Upgrade\r\n\
            Sec-WebSocket-Key: dGhlIHNhbXBsZSBub25jZQ==\r\nSec-WebSocket-Version: 13\r\nno colon\r\n\r\n",
        status: 400,
        speaks_binary: false,
    },
    // a folded line
    Request {
        bytes: b"GET / HTTP/1.1\r\nHost: 127.0.0.1:5800\r\nUpgrade: websocket\r\nConnection: Upgrade\r\n\
            Sec-WebSocket-Key: dGhlIHNhbXBsZSBub25jZQ==\r\nSec-WebSocket-Version: 13\r\nX: a\r\n b\r\n\r\n",
        status: 400,
        speaks_binary: false,
    },
    // a space before a colon
    Request {
        bytes: b"GET / HTTP/1.1\r\nHost: 127.0.0.1:5800\r\nUpgrade: websocket\r\nConnection: Upgrade\r\n\
            Sec-WebSocket-Key: dGhlIHNhbXBsZSBub25jZQ==\r\nSec-WebSocket-Version: 13\r\nX : a\r\n\r\n",
        status: 400,
        speaks_binary: false,
    },
    // a NUL in a value
    Request {
        bytes: b"GET / HTTP/1.1\r\nHost: 127.0.0.1:5800\r\nUpgrade: websocket\r\nConnection: Upgrade\r\n\
            Sec-WebSocket-Key: dGhlIHNhbXBsZSBub25jZQ==\r\nSec-WebSocket-Version: 13\r\nX: a\0b\r\n\r\n",
        status: 400,
        speaks_binary: false,
    },
    // lines that end in LF alone
    Request {
        bytes: b"GET / HTTP/1.1\nHost: 127.0.0.1:5800\nUpgrade: websocket\nConnection: Upgrade\n\
            Sec-WebSocket-Key: dGhlIHNhbXBsZSBub25jZQ==\nSec-WebSocket-Version: 13\n\n\r\n\r\n",
        status: 400,
        speaks_binary: false,
    },
    // a target that is no path
    Request {
        bytes: b"GET a HTTP/1.1\r\nHost: 127.0.0.1:5800\r\nUpgrade: websocket\r\nConnection: Upgrade\r\n\
            Sec-WebSocket-Key: dGhlIHNhbXBsZSBub25jZQ==\r\nSec-WebSocket-Version: 13\r\n\r\n",
        status: 400,
        speaks_binary: false,
    },
    // no Host
    Request {
        bytes: b"GET / HTTP/1.1\r\nUpgrade: websocket\r\nConnection: Upgrade\r\nSec-WebSocket-Key: dGhlIHNhbXBsZSBub25jZQ==\r\n\
            Sec-WebSocket-Version: 13\r\n\r\n",
        status: 400,
        speaks_binary: false,
    },
    // two Hosts
    Request {
        bytes: b"GET / HTTP/1.1\r\nHost: 127.0.0.1:5800\r\nUpgrade: websocket\r\nConnection: Upgrade\r\n\
            Sec-WebSocket-Key: dGhlIHNhbXBsZSBub25jZQ==\r\nSec-WebSocket-Version: 13\r\nHost: 127.0.0.1:5800\r\n\r\n",
        status: 400,
        speaks_binary: false,
    },
    // two Origins
    Request {
        bytes: b"GET / HTTP/1.1\r\nHost: 127.0.0.1:5800\r\nUpgrade: websocket\r\nConnection: Upgrade\r\n\
            Sec-WebSocket-Key: dGhlIHNhbXBsZSBub25jZQ==\r\nSec-WebSocket-Version: 13\r\nOrigin: http://127.0.0.1:5800\r\n\
            Origin: http://127.0.0.1:5800\r\n\r\n",
        status: 400,
        speaks_binary: false,
    },
    // two keys
    Request {
        bytes: b"GET / HTTP/1.1\r\nHost: 127.0.0.1:5800\r\nUpgrade: websocket\r\nConnection: Upgrade\r\n\
            Sec-WebSocket-Key: dGhlIHNhbXBsZSBub25jZQ==\r\nSec-WebSocket-Version: 13\r\n\
            Sec-WebSocket-Key: dGhlIHNhbXBsZSBub25jZQ==\r\n\r\n",
        status: 400,
        speaks_binary: false,
    },
    // two versions
    Request {
        bytes: b"GET / HTTP/1.1\r\nHost: 127.0.0.1:5800\r\nUpgrade: websocket\r\nConnection: Upgrade\r\n\
            Sec-WebSocket-Key: dGhlIHNhbXBsZSBub25jZQ==\r\nSec-WebSocket-Version: 13\r\nSec-WebSocket-Version: 13\r\n\r\n",
        status: 400,
        speaks_binary: false,
    },
    // no key
    Request {
        bytes: b"GET / HTTP/1.1\r\nHost: 127.0.0.1:5800\r\nUpgrade: websocket\r\nConnection: Upgrade\r\n\
            Sec-WebSocket-Version: 13\r\n\r\n",
        status: 400,
        speaks_binary: false,
    },
    // a key of fifteen bytes
    Request {
        bytes: b"GET / HTTP/1.1\r\nHost: 127.0.0.1:5800\r\nUpgrade: websocket\r\nConnection: Upgrade\r\n\
            Sec-WebSocket-Key: AQIDBAUGBwgJCgsMDQ4P\r\nSec-WebSocket-Version: 13\r\n\r\n",
        status: 400,
        speaks_binary: false,
    },
    // a key that is no base64
    Request {
        bytes: b"GET / HTTP/1.1\r\nHost: 127.0.0.1:5800\r\nUpgrade: websocket\r\nConnection: Upgrade\r\n\
            Sec-WebSocket-Key: dGhlIHNhbXBsZSBub25jZQ=!\r\nSec-WebSocket-Version: 13\r\n\r\n",
        status: 400,
        speaks_binary: false,
    },
    // a page of a foreign site
    Request {
        bytes: b"GET / HTTP/1.1\r\nHost: 127.0.0.1:5800\r\nUpgrade: websocket\r\nConnection: Upgrade\r\n\
            Sec-WebSocket-Key: dGhlIHNhbXBsZSBub25jZQ==\r\nSec-WebSocket-Version: 13\r\n\
            Origin: https://evil.example\r\n\r\n",
        status: 403,
        speaks_binary: false,
    },
    // a page of a sandbox
    Request {
        bytes: b"GET / HTTP/1.1\r\nHost: 127.0.0.1:5800\r\nUpgrade: websocket\r\nConnection: Upgrade\r\n\
            Sec-WebSocket-Key: dGhlIHNhbXBsZSBub25jZQ==\r\nSec-WebSocket-Version: 13\r\nOrigin: null\r\n\r\n",
        status: 403,
        speaks_binary: false,
    },
    // a page of another port
    Request {
        bytes: b"GET / HTTP/1.1\r\nHost: 127.0.0.1:5800\r\nUpgrade: websocket\r\nConnection: Upgrade\r\n\
            Sec-WebSocket-Key: dGhlIHNhbXBsZSBub25jZQ==\r\nSec-WebSocket-Version: 13\r\n\
            Origin: http://127.0.0.1:8000\r\n\r\n",
        status: 403,
        speaks_binary: false,
    },
    // a page whose name resolves to 127.0.0.1
    Request {
        bytes: b"GET / HTTP/1.1\r\nHost: evil.example:5800\r\nUpgrade: websocket\r\nConnection: Upgrade\r\n\
            Sec-WebSocket-Key: dGhlIHNhbXBsZSBub25jZQ==\r\nSec-WebSocket-Version: 13\r\n\
            Origin: http://evil.example:5800\r\n\r\n",
        status: 403,
        speaks_binary: false,
    },
    // a name that begins with one of this machine
    Request {
        bytes: b"GET / HTTP/1.1\r\nHost: localhost.evil.example\r\nUpgrade: websocket\r\nConnection: Upgrade\r\n\
            Sec-WebSocket-Key: dGhlIHNhbXBsZSBub25jZQ==\r\nSec-WebSocket-Version: 13\r\n\r\n",
        status: 403,
        speaks_binary: false,
    },
    // no name in Host
    Request {
        bytes: b"GET / HTTP/1.1\r\nHost:\r\nUpgrade: websocket\r\nConnection: Upgrade\r\n\
            Sec-WebSocket-Key: dGhlIHNhbXBsZSBub25jZQ==\r\nSec-WebSocket-Version: 13\r\n\r\n",
        status: 403,
        speaks_binary: false,
    },
    // a named host at another port
    Request {
        bytes: b"GET / HTTP/1.1\r\nHost: desk.example:5800\r\nUpgrade: websocket\r\nConnection: Upgrade\r\n\
            Sec-WebSocket-Key: dGhlIHNhbXBsZSBub25jZQ==\r\nSec-WebSocket-Version: 13\r\n\r\n",
        status: 403,
        speaks_binary: false,
    },
    // a name that begins with an address of this machine
    Request {
        bytes: b"GET / HTTP/1.1\r\nHost: 127.0.0.1.evil.example\r\nUpgrade: websocket\r\nConnection: Upgrade\r\n\
            Sec-WebSocket-Key: dGhlIHNhbXBsZSBub25jZQ==\r\nSec-WebSocket-Version: 13\r\n\r\n",
        status: 403,
        speaks_binary: false,
    },
    // a port that is no number
    Request {
        bytes: b"GET / HTTP/1.1\r\nHost: localhost:58a0\r\nUpgrade: websocket\r\nConnection: Upgrade\r\n\
            Sec-WebSocket-Key: dGhlIHNhbXBsZSBub25jZQ==\r\nSec-WebSocket-Version: 13\r\n\r\n",
        status: 403,
        speaks_binary: false,
    },
    // a page of this machine by another name
    Request {
        bytes: b"GET / HTTP/1.1\r\nHost: 127.0.0.1:5800\r\nUpgrade: websocket\r\nConnection: Upgrade\r\n\
            Sec-WebSocket-Key: dGhlIHNhbXBsZSBub25jZQ==\r\nSec-WebSocket-Version: 13\r\n\
            Origin: http://localhost:5800\r\n\r\n",
        status: 403,
        speaks_binary: false,
    },
    // an origin that begins with that of the host
    Request {
        bytes: b"GET / HTTP/1.1\r\nHost: 127.0.0.1:5800\r\nUpgrade: websocket\r\nConnection: Upgrade\r\n\
            Sec-WebSocket-Key: dGhlIHNhbXBsZSBub25jZQ==\r\nSec-WebSocket-Version: 13\r\n\
            Origin: http://127.0.0.1:5800.evil.example\r\n\r\n",
        status: 403,
        speaks_binary: false,
    },
    // an origin that begins with one that is named
    Request {
        bytes: b"GET / HTTP/1.1\r\nHost: 127.0.0.1:5800\r\nUpgrade: websocket\r\nConnection: Upgrade\r\n\
            Sec-WebSocket-Key: dGhlIHNhbXBsZSBub25jZQ==\r\nSec-WebSocket-Version: 13\r\n\
            Origin: https://pages.example.evil.example\r\n\r\n",
        status: 403,
        speaks_binary: false,
    },
    // a named origin by another scheme
    Request {
        bytes: b"GET / HTTP/1.1\r\nHost: 127.0.0.1:5800\r\nUpgrade: websocket\r\nConnection: Upgrade\r\n\
            Sec-WebSocket-Key: dGhlIHNhbXBsZSBub25jZQ==\r\nSec-WebSocket-Version: 13\r\n\
            Origin: http://pages.example\r\n\r\n",
        status: 403,
        speaks_binary: false,
    },
    // no name in Origin
    Request {
        bytes: b"GET / HTTP/1.1\r\nHost: 127.0.0.1:5800\r\nUpgrade: websocket\r\nConnection: Upgrade\r\n\
            Sec-WebSocket-Key: dGhlIHNhbXBsZSBub25jZQ==\r\nSec-WebSocket-Version: 13\r\n\
            Origin: \r\n\r\n",
        status: 403,
        speaks_binary: false,
    },
    // no Upgrade
    Request {
        bytes: b"GET / HTTP/1.1\r\nHost: 127.0.0.1:5800\r\nConnection: Upgrade\r\n\
            Sec-WebSocket-Key: dGhlIHNhbXBsZSBub25jZQ==\r\nSec-WebSocket-Version: 13\r\n\r\n",
        status: 426,
        speaks_binary: false,
    },
    // no Connection
    Request {
        bytes: b"GET / HTTP/1.1\r\nHost: 127.0.0.1:5800\r\nUpgrade: websocket\r\n\
            Sec-WebSocket-Key: dGhlIHNhbXBsZSBub25jZQ==\r\nSec-WebSocket-Version: 13\r\n\r\n",
        status: 426,
        speaks_binary: false,
    },
    // another protocol
    Request {
        bytes: b"GET / HTTP/1.1\r\nHost: 127.0.0.1:5800\r\nUpgrade: h2c\r\nConnection: Upgrade\r\n\
            Sec-WebSocket-Key: dGhlIHNhbXBsZSBub25jZQ==\r\nSec-WebSocket-Version: 13\r\n\r\n",
        status: 426,
        speaks_binary: false,
    },
    // a connection that is kept
    Request {
        bytes: b"GET / HTTP/1.1\r\nHost: 127.0.0.1:5800\r\nUpgrade: websocket\r\nConnection: keep-alive\r\n\
            Sec-WebSocket-Key: dGhlIHNhbXBsZSBub25jZQ==\r\nSec-WebSocket-Version: 13\r\n\r\n",
        status: 426,
        speaks_binary: false,
    },
    // no version
    Request {
        bytes: b"GET / HTTP/1.1\r\nHost: 127.0.0.1:5800\r\nUpgrade: websocket\r\nConnection: Upgrade\r\n\
            Sec-WebSocket-Key: dGhlIHNhbXBsZSBub25jZQ==\r\n\r\n",
        status: 426,
        speaks_binary: false,
    },
    // version 8
    Request {
        bytes: b"GET / HTTP/1.1\r\nHost: 127.0.0.1:5800\r\nUpgrade: websocket\r\nConnection: Upgrade\r\n\
            Sec-WebSocket-Key: dGhlIHNhbXBsZSBub25jZQ==\r\nSec-WebSocket-Version: 8\r\n\r\n",
        status: 426,
        speaks_binary: false,
    },
    // two versions in one line
    Request {
        bytes: b"GET / HTTP/1.1\r\nHost: 127.0.0.1:5800\r\nUpgrade: websocket\r\nConnection: Upgrade\r\n\
            Sec-WebSocket-Key: dGhlIHNhbXBsZSBub25jZQ==\r\nSec-WebSocket-Version: 13, 8\r\n\r\n",
        status: 426,
        speaks_binary: false,
    },
    // 64 lines
    Request {
        bytes: b"GET / HTTP/1.1\r\nHost: 127.0.0.1:5800\r\nUpgrade: websocket\r\nConnection: Upgrade\r\n\
            Sec-WebSocket-Key: dGhlIHNhbXBsZSBub25jZQ==\r\nSec-WebSocket-Version: 13\r\nA: b\r\nA: b\r\nA: b\r\nA: b\r\n\
            A: b\r\nA: b\r\nA: b\r\nA: b\r\nA: b\r\nA: b\r\nA: b\r\nA: b\r\nA: b\r\nA: b\r\nA: b\r\nA: b\r\nA: b\r\n\
            A: b\r\nA: b\r\nA: b\r\nA: b\r\nA: b\r\nA: b\r\nA: b\r\nA: b\r\nA: b\r\nA: b\r\nA: b\r\nA: b\r\nA: b\r\n\
            A: b\r\nA: b\r\nA: b\r\nA: b\r\nA: b\r\nA: b\r\nA: b\r\nA: b\r\nA: b\r\nA: b\r\nA: b\r\nA: b\r\nA: b\r\n\
            A: b\r\nA: b\r\nA: b\r\nA: b\r\nA: b\r\nA: b\r\nA: b\r\nA: b\r\nA: b\r\nA: b\r\nA: b\r\nA: b\r\nA: b\r\n\
            A: b\r\nA: b\r\nA: b\r\n\r\n",
        status: 101,
        speaks_binary: false,
    },
    // 65 lines
    Request {
        bytes: b"GET / HTTP/1.1\r\nHost: 127.0.0.1:5800\r\nUpgrade: websocket\r\nConnection: Upgrade\r\n\
            Sec-WebSocket-Key: dGhlIHNhbXBsZSBub25jZQ==\r\nSec-WebSocket-Version: 13\r\nA: b\r\nA: b\r\nA: b\r\nA: b\r\n\
            A: b\r\nA: b\r\nA: b\r\nA: b\r\nA: b\r\nA: b\r\nA: b\r\nA: b\r\nA: b\r\nA: b\r\nA: b\r\nA: b\r\nA: b\r\n\
            A: b\r\nA: b\r\nA: b\r\nA: b\r\nA: b\r\nA: b\r\nA: b\r\nA: b\r\nA: b\r\nA: b\r\nA: b\r\nA: b\r\nA: b\r\n\
            A: b\r\nA: b\r\nA: b\r\nA: b\r\nA: b\r\nA: b\r\nA: b\r\nA: b\r\nA: b\r\nA: b\r\nA: b\r\nA: b\r\nA: b\r\n\
            A: b\r\nA: b\r\nA: b\r\nA: b\r\nA: b\r\nA: b\r\nA: b\r\nA: b\r\nA: b\r\nA: b\r\nA: b\r\nA: b\r\nA: b\r\n\
            A: b\r\nA: b\r\nA: b\r\nA: b\r\n\r\n",
        status: 400,
        speaks_binary: false,
    },
];
