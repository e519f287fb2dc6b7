ghost use Rattle.std.specs.Prelude.{◌≡◌, ◌<◌, ◌^◌};
ghost use Rattle.serve_frames.specs.declared.request.Request.{Request};
ghost use Rattle.serve_frames.specs.declared.reply.Reply.{Reply};
ghost use Rattle.serve_frames.specs.Requests.{request_bytes, Fits};
ghost use Rattle.serve_frames.specs.Replies.{reply_bytes};

/// A law: no header stands for two requests or two replies, so decoding gives back what was encoded.
pub fn headers_have_one_meaning()
    ensures requests { (a b : Request) → Fits a → Fits b → request_bytes a ≡ request_bytes b → a ≡ b }
    ensures replies { (a b : Reply) → a.cookie < 2 ^ 64 → b.cookie < 2 ^ 64 → reply_bytes a ≡ reply_bytes b → a ≡ b }
{}
